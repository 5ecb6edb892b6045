//! The table of routes, the text of refusals and a worked reply.

ghost use Rattle.std.specs.Prelude.{◌≡◌, true, false, codes};
ghost use Rattle.request_target.specs.Rows.{are_routes};
ghost use Rattle.http_wire.specs.Messages.{WireMessage};
ghost use Rattle.http_wire.specs.Replies.{refusal_text};
ghost use Rattle.rollout_model.specs.declared.refusal.Refusal.{Refusal};
ghost use Rattle.rollout_machine.specs.Replies.{ModuleAdded, Refused};
ghost use Rattle.mgmt_api.specs.Routes.{manage_table};
ghost use Rattle.mgmt_api.specs.Replies.{parts_of, parts_to, text_of};

/// The routes are words and parameters that take a whole segment, and no path meets two of them.
pub fn manage_routes_are_apart()
    ensures { are_routes manage_table ≡ true }
{}

/// A refused request is answered by the refusal's own text, whatever it asked.
pub fn refused_text()
    ensures { (m : WireMessage) (refusal : Refusal) → text_of (parts_to m (Refused refusal)) ≡ refusal_text refusal }
{}

/// A worked reply, letter by letter.
pub fn worked_module_added()
    ensures { (parts_of (ModuleAdded (record {
      number = 1;
      locked = false;
      label =
          record { name = codes "app"; kind = codes "os"; version = codes "1.0" };
    }))).body
        ≡ codes "[{\"id\":1,\"locked\":false,\"name\":\"app\",\"type\":\"os\",\"version\":\"1.0\"}]" }
{}
