//! Worked bodies and texts.

ghost use Rattle.std.specs.Prelude.{◌≡◌, Some, None, codes, ◌++◌, false, [], ◌∷◌, option_and_then, replicate};
ghost use Rattle.serde_json.specs.Written.{compact_text};
ghost use Rattle.rollout_model.specs.Groupings.{defined, evenly};
ghost use Rattle.rollout_model.specs.declared.action_word.ActionWord.TheVariants as action;
ghost use Rattle.rollout_model.specs.declared.feedback.CancelWord.TheVariants as cancel;
ghost use Rattle.rollout_model.specs.declared.feedback.DeploymentWord.TheVariants as deployment;
ghost use Rattle.rollout_model.specs.declared.feedback.NoteWord.TheVariants as note;
ghost use Rattle.rollout_model.specs.declared.feedback.Said.TheVariants as said;
ghost use Rattle.rollout_model.specs.declared.group_word.GroupWord.TheVariants as group;
ghost use Rattle.rollout_model.specs.declared.module.Module.{Module};
ghost use Rattle.rollout_model.specs.declared.rollout.Action.{Action};
ghost use Rattle.rollout_model.specs.declared.rollout.Group.{Group};
ghost use Rattle.rollout_model.specs.declared.rollout.Rollout.{Rollout};
ghost use Rattle.rollout_model.specs.declared.rollout_word.RolloutWord.TheVariants as rollout;
ghost use Rattle.mgmt_objects.specs.ArtifactObjects.{artifact_data};
ghost use Rattle.mgmt_objects.specs.Bodies.{body_data, body_item};
ghost use Rattle.mgmt_objects.specs.ModuleBodies.{label_of};
ghost use Rattle.mgmt_objects.specs.ModuleObjects.{module_data, module_letters};
ghost use Rattle.mgmt_objects.specs.Pages.{single};
ghost use Rattle.mgmt_objects.specs.ActionObjects.{action_data, action_letters, entry_data};
ghost use Rattle.mgmt_objects.specs.RolloutBodies.{plan_of};
ghost use Rattle.mgmt_objects.specs.RolloutObjects.{group_data, group_letters, rollout_data, rollout_letters};
ghost use Rattle.mgmt_objects.specs.SetBodies.{set_label_of};
ghost use Rattle.mgmt_objects.specs.SetObjects.{set_data};
ghost use Rattle.artifact_pieces.specs.Digests.{digest_of};
ghost use Rattle.rollout_model.specs.declared.target_word.TargetWord.TheVariants.{InSync};
ghost use Rattle.mgmt_objects.specs.Thresholds.{percentage_of_text};
ghost use Rattle.mgmt_objects.specs.Traverse.{array_of};
ghost use Rattle.rollout_model.specs.Rules.{kept_if};
ghost use Rattle.mgmt_objects.specs.TargetBodies.{are_posted, target_row_of};
ghost use Rattle.mgmt_objects.specs.TargetObjects.{accepted_data, target_data};

/// What worked bodies say:
/// - `module`: a worked body names the module that it spells
/// - `set`: a worked body names the distribution set that it spells
/// - `targets`: a worked body puts the target that it spells, known by its token's digest alone
/// - `rollout`: a worked body plans the rollout that it spells
/// - `groups`: a worked body of named groups: the second has thresholds of its own, the others have the rollout's
/// - `null_action`: a body whose action for an error is `null` plans nothing
pub fn bodies()
    ensures module { option_and_then label_of (body_item (codes "[{\"name\":\"app\",\"type\":\"os\",\"version\":\"1.0\"}]"))
        ≡ Some (record { name = codes "app"; kind = codes "os"; version = codes "1.0" }) }
    ensures set { option_and_then set_label_of (body_item (codes "[{\"name\":\"r1\",\"version\":\"1\",\"modules\":[{\"id\":2},{\"id\":1}]}]"))
        ≡ Some (record { name = codes "r1"; version = codes "1"; modules = 2 ∷ 1 ∷ [] }) }
    ensures targets { option_and_then (kept_if are_posted) (option_and_then (array_of target_row_of)
        (body_data (codes "[{\"controllerId\":\"dev-01\",\"name\":\"press\",\"securityToken\":\"tok-dev-01\",\"tags\":[\"lab\"]}]")))
        ≡ Some (record { id = codes "dev-01"; name = codes "press"; digest = digest_of (codes "tok-dev-01"); tags = codes "lab" ∷ [] } ∷ []) }
    ensures rollout { option_and_then plan_of (body_data (codes "{\"amountGroups\":3,\"distributionSetId\":1,\"errorCondition\":{\"condition\":\"THRESHOLD\","
        ++ codes "\"expression\":\"100\"},\"name\":\"spring\",\"successAction\":{\"action\":\"NEXTGROUP\"},"
        ++ codes "\"successCondition\":{\"condition\":\"THRESHOLD\",\"expression\":\"50\"},\"targetFilterQuery\":\"name==*\"}"))
        ≡ Some (record { name = codes "spring"; set_number = 1; filter_text = codes "name==*"; groups = evenly 3; success = 50; error = 100 }) }
    ensures groups { option_and_then plan_of
        (body_data (codes "{\"distributionSetId\":1,\"errorCondition\":{\"condition\":\"THRESHOLD\",\"expression\":\"100\"},"
        ++ codes "\"groups\":[{\"targetPercentage\":10},{\"errorCondition\":{\"condition\":\"THRESHOLD\",\"expression\":\"34\"},"
        ++ codes "\"successCondition\":{\"condition\":\"THRESHOLD\",\"expression\":\"40\"},\"targetPercentage\":50},"
        ++ codes "{\"targetPercentage\":100}],\"name\":\"spring\","
        ++ codes "\"successCondition\":{\"condition\":\"THRESHOLD\",\"expression\":\"100\"},\"targetFilterQuery\":\"name==*\"}"))
        ≡ Some (record {
          name = codes "spring";
          set_number = 1;
          filter_text = codes "name==*";
          groups = defined (record { percentage = 10; success = 100; error = 100 }
              ∷ record { percentage = 50; success = 40; error = 34 } ∷ record { percentage = 100; success = 100; error = 100 } ∷ []);
          success = 100;
          error = 100;
        }) }
    ensures null_action { option_and_then plan_of (body_data (codes "{\"amountGroups\":3,\"distributionSetId\":1,\"errorAction\":null,"
        ++ codes "\"errorCondition\":{\"condition\":\"THRESHOLD\",\"expression\":\"100\"},\"name\":\"spring\","
        ++ codes "\"successCondition\":{\"condition\":\"THRESHOLD\",\"expression\":\"50\"},\"targetFilterQuery\":\"name==*\"}")) ≡ None }
{}

/// A percentage has digits alone, and no leading zero.
pub fn worked_percentages()
    ensures least { percentage_of_text (codes "1") ≡ Some 1 }
    ensures greatest { percentage_of_text (codes "100") ≡ Some 100 }
    ensures zero { percentage_of_text (codes "0") ≡ None }
    ensures more { percentage_of_text (codes "101") ≡ None }
    ensures leading_zero { percentage_of_text (codes "050") ≡ None }
    ensures sign { percentage_of_text (codes "+5") ≡ None }
    ensures none { percentage_of_text [] ≡ None }
{}

/// The texts of all objects of a kind are their letters:
/// - `module`: the text of a module is its letters
/// - `rollout`: the text of a rollout is its letters
/// - `group`: the text of a group is its letters
/// - `action`: the text of an action is its letters
pub fn letters()
    ensures module { (m : Module) → compact_text (module_data m) ≡ module_letters m }
    ensures rollout { (r : Rollout) → compact_text (rollout_data r) ≡ rollout_letters r }
    ensures group { (g : Group) → compact_text (group_data g) ≡ group_letters g }
    ensures action { (a : Action) → compact_text (action_data a) ≡ action_letters a }
{}

/// The texts of worked objects:
/// - `module`: the text of a worked module in an array of its own
/// - `set`: the text of a worked distribution set
/// - `artifact`: the text of a worked artifact, whose digest is the same byte 32 times
/// - `target`: the text of a worked target
/// - `accepted`: the text of a worked number of accepted rows
/// - `rollout`: the text of a worked rollout
/// - `group`: the text of a worked group
/// - `action`: the text of a worked action
pub fn texts()
    ensures module { compact_text (single (module_data (record {
      number = 1;
      locked = false;
      label =
          record { name = codes "app"; kind = codes "os"; version = codes "1.0" };
    })))
        ≡ codes "[{\"id\":1,\"locked\":false,\"name\":\"app\",\"type\":\"os\",\"version\":\"1.0\"}]" }
    ensures set { compact_text (set_data (record { number = 1; label = record { name = codes "r1"; version = codes "1"; modules = 1 ∷ [] } }))
        ≡ codes "{\"id\":1,\"modules\":[{\"id\":1}],\"name\":\"r1\",\"version\":\"1\"}" }
    ensures artifact { compact_text (artifact_data (record { number = 1; filename = codes "abc.bin"; size = 3; digest = replicate 32 171 }))
        ≡ codes "{\"hashes\":{\"sha256\":\"abababababababababababababababababababababababababababababababab\"},"
        ++ codes "\"id\":1,\"providedFilename\":\"abc.bin\",\"size\":3}" }
    ensures target { compact_text (target_data (record {
      id = codes "dev-01";
      name = codes "press";
      tags = codes "hall" ∷ codes "lab" ∷ [];
      attributes = record { key = codes "os"; value = codes "linux" } ∷ [];
      word = InSync;
    }))
        ≡ codes "{\"attributes\":{\"os\":\"linux\"},\"controllerId\":\"dev-01\",\"name\":\"press\","
        ++ codes "\"tags\":[\"hall\",\"lab\"],\"updateStatus\":\"in_sync\"}" }
    ensures accepted { compact_text (accepted_data 100) ≡ codes "{\"accepted\":100}" }
    ensures rollout { compact_text (rollout_data (record {
      number = 1;
      name = codes "spring";
      set_number = 1;
      filter_text = codes "name==*";
      word = rollout.Ready;
      groups = 3;
      targets = 10;
    }))
        ≡ codes "{\"distributionSetId\":1,\"id\":1,\"name\":\"spring\",\"status\":\"ready\","
        ++ codes "\"targetFilterQuery\":\"name==*\",\"totalGroups\":3,\"totalTargets\":10}" }
    ensures group { compact_text (group_data (record {
      number = 2;
      size = 5;
      ok = 2;
      bad = 0;
      gone = 0;
      success = 40;
      error = 34;
      word = group.Running;
    }))
        ≡ codes "{\"bad\":0,\"error\":34,\"gone\":0,\"id\":2,\"ok\":2,\"size\":5,\"status\":\"running\",\"success\":40}" }
    ensures action { compact_text (action_data (record { number = 1; rollout = 1; group = 1; target = codes "dev-01"; word = action.Running }))
        ≡ codes "{\"group\":1,\"id\":1,\"rollout\":1,\"status\":\"running\",\"target\":\"dev-01\"}" }
{}

/// The texts of two worked entries of a history, the second with the number that the device gave.
pub fn worked_entry_text()
    ensures plain { compact_text (entry_data (record {
      number = 2;
      reported = record { entry = record { said = said.Cancel cancel.Canceled; details = codes "ok" ∷ [] }; number = None };
    }))
        ≡ codes "{\"details\":[\"ok\"],\"execution\":\"canceled\",\"finished\":\"success\",\"id\":2,\"kind\":\"cancel\"}" }
    ensures numbered { compact_text (entry_data (record {
      number = 1;
      reported = record { entry = record { said = said.Deployment (deployment.Noted note.Proceeding); details = [] }; number = Some 5 };
    }))
        ≡ codes "{\"details\":[],\"execution\":\"proceeding\",\"finished\":\"none\",\"id\":1,\"kind\":\"deployment\",\"number\":5}" }
{}
