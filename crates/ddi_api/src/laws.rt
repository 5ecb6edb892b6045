//! The table of routes, the first refusals, the text of refusals, and worked messages, bodies and replies.

ghost use Rattle.std.specs.Prelude.{◌≡◌, ℕ, List, Option, [], ◌∷◌, true, codes, ◌++◌, bytes_eq, replicate, Some, None, false, option_and_then};
ghost use Rattle.serde_json.specs.Written.{compact_text};
ghost use Rattle.request_target.specs.Routes.{route_of};
ghost use Rattle.request_target.specs.Rows.{are_routes};
ghost use Rattle.http_wire.specs.Messages.{WireMessage};
ghost use Rattle.http_wire.specs.Targets.{path_of};
ghost use Rattle.http_wire.specs.Replies.{refusal_text};
ghost use Rattle.artifact_pieces.specs.Digests.{digest_of};
ghost use Rattle.rollout_model.specs.declared.refusal.Refusal.{Refusal};
ghost use Rattle.rollout_model.specs.declared.refusal.Refusal.TheVariants.{Unauthorized};
ghost use Rattle.rollout_machine.specs.Commands.{Succeeded, RejectedCancel};
ghost use Rattle.rollout_machine.specs.Replies.{Deployment, PollShown, Refused};
ghost use Rattle.rollout_machine.specs.Offers.{Offer};
ghost use Rattle.rollout_machine.specs.Requests.{Ask, Asks, Poll, Rejected};
ghost use Rattle.mgmt_api.specs.Replies.{text_of};
ghost use Rattle.mgmt_objects.specs.Bodies.{body_data};
ghost use Rattle.ddi_api.specs.declared.call.DeviceCall.{DeviceCall};
ghost use Rattle.ddi_api.specs.ConfigBodies.{config_of};
ghost use Rattle.ddi_api.specs.Credentials.{credential_of, digest_of_value};
ghost use Rattle.ddi_api.specs.FeedbackBodies.{cancel_word, deployment_word, feedback_in, number_given};
ghost use Rattle.ddi_api.specs.Letters.{cancel_letters, deployment_letters, poll_letters};
ghost use Rattle.ddi_api.specs.Objects.{cancel_data, deployment_data, poll_data};
ghost use Rattle.ddi_api.specs.Reading.{device_reading};
ghost use Rattle.ddi_api.specs.Replies.{parts_of};
ghost use Rattle.ddi_api.specs.Routes.{device_table, method_of};

/// What requests ask:
/// - `routes_are_apart`: the routes are words and parameters that take a whole segment, and no path meets two of them
/// - `unauthorized_comes_first`: whoever doesn't say who it is in the one form is told so, whatever else the path, the query and the body
///   hold
/// - `poll`: a worked message asks for a poll
/// - `strangers_..`: two fields of authorization say nothing, and an id that is no word is told nothing else
pub fn requests()
    ensures routes_are_apart { are_routes device_table ≡ true }
    ensures unauthorized_comes_first { (m : WireMessage) → (call : DeviceCall) → route_of device_table (path_of m.target) ≡ Some call
        → bytes_eq m.method (method_of call) ≡ true → credential_of m ≡ None → device_reading m ≡ Rejected Unauthorized }
    ensures poll { device_reading (record {
      method = codes "GET";
      target = codes "/DEFAULT/controller/v1/dev-01";
      fields = (codes "AUTHORIZATION", codes "TargetToken tok-dev-01") ∷ [];
      body = [];
    })
        ≡ Asks (Ask (Poll (record { id = codes "dev-01"; digest = digest_of (codes "tok-dev-01") }))) }
    ensures strangers_twice { device_reading (record {
      method = codes "GET";
      target = codes "/DEFAULT/controller/v1/dev-01?x=1";
      fields = (codes "Authorization", codes "TargetToken tok-dev-01") ∷ (codes "authorization", codes "TargetToken tok-dev-01") ∷ [];
      body = [];
    })
        ≡ Rejected Unauthorized }
    ensures strangers_id { device_reading (record {
      method = codes "GET";
      target = codes "/DEFAULT/controller/v1/dev%2001/deploymentBase/0";
      fields = (codes "Authorization", codes "TargetToken tok-dev-01") ∷ [];
      body = [];
    }) ≡ Rejected Unauthorized }
{}

/// What a field of authorization shows:
/// - `token`: of an authorization only the digest of its token is left
/// - `no_..`: two spaces, another case of the scheme or another scheme show no token
pub fn authorizations()
    ensures token { digest_of_value (codes "TargetToken tok-dev-01") ≡ Some (digest_of (codes "tok-dev-01")) }
    ensures no_spaces { digest_of_value (codes "TargetToken  tok-dev-01") ≡ None }
    ensures no_case { digest_of_value (codes "targettoken tok-dev-01") ≡ None }
    ensures no_scheme { digest_of_value (codes "GatewayToken tok-dev-01") ≡ None }
    ensures no_short { digest_of_value (codes "TargetToken tok-dev") ≡ None }
{}

/// What bodies say:
/// - `feedback`: a worked body says that a deployment succeeded, with one line
/// - `cancel_feedback`: a worked body says that a device goes on in spite of a cancel, by a number
/// - `config`: of equal keys the last one counts, and keys stand in byte order
pub fn bodies()
    ensures feedback { option_and_then (feedback_in deployment_word (record { id = codes "dev-01"; digest = [] }) 4)
        (body_data (codes "{\"status\":{\"execution\":\"closed\",\"result\":{\"finished\":\"success\"},\"details\":[\"done\"]}}"))
        ≡ Some (record { credential = record { id = codes "dev-01"; digest = [] }; action = 4; word = Succeeded; details = codes "done" ∷ []; number = None }) }
    ensures cancel_feedback { option_and_then (feedback_in cancel_word (record { id = codes "dev-01"; digest = [] }) 4)
        (body_data (codes "{\"number\":7,\"status\":{\"execution\":\"rejected\",\"result\":{\"finished\":\"none\"}}}"))
        ≡ Some (record { credential = record { id = codes "dev-01"; digest = [] }; action = 4; word = RejectedCancel; details = []; number = Some 7 }) }
    ensures config { option_and_then config_of (body_data (codes "{\"mode\":\"merge\",\"data\":{\"os\":\"a\",\"hw\":\"2\",\"os\":\"b\"}}"))
        ≡ Some (record { key = codes "hw"; value = codes "2" } ∷ record { key = codes "os"; value = codes "b" } ∷ []) }
{}

/// Numbers of feedback that are given, and two that stand for none.
pub fn worked_numbers()
    ensures greatest { option_and_then number_given (body_data (codes "{\"number\":4294967295}")) ≡ Some (Some 4294967295) }
    ensures last { option_and_then number_given (body_data (codes "{\"number\":0,\"number\":1}")) ≡ Some (Some 1) }
    ensures missing { option_and_then number_given (body_data (codes "{}")) ≡ Some None }
    ensures inside { option_and_then number_given (body_data (codes "{\"status\":{\"number\":5}}")) ≡ Some None }
{}

/// What no number is.
pub fn no_numbers()
    ensures nothing { option_and_then number_given (body_data (codes "{\"number\":0}")) ≡ None }
    ensures over { option_and_then number_given (body_data (codes "{\"number\":4294967296}")) ≡ None }
    ensures negative { option_and_then number_given (body_data (codes "{\"number\":-1}")) ≡ None }
    ensures fraction { option_and_then number_given (body_data (codes "{\"number\":1.0}")) ≡ None }
    ensures exponent { option_and_then number_given (body_data (codes "{\"number\":1e0}")) ≡ None }
    ensures text { option_and_then number_given (body_data (codes "{\"number\":\"5\"}")) ≡ None }
    ensures null { option_and_then number_given (body_data (codes "{\"number\":null}")) ≡ None }
{}

/// The texts of all replies of a kind are their letters:
/// - `poll`: the texts of all polls are their letters
/// - `cancel`: the texts of all cancels are their letters
/// - `deployment`: the texts of all deployments are their letters
pub fn letters()
    ensures poll { (id : List ℕ) → (offer : Option Offer) → compact_text (poll_data id offer) ≡ poll_letters id offer }
    ensures cancel { (action : ℕ) → compact_text (cancel_data action) ≡ cancel_letters action }
    ensures deployment { (d : Deployment) → compact_text (deployment_data d) ≡ deployment_letters d }
{}

/// The texts of replies:
/// - `refused`: a refused request is answered by the refusal's own text
/// - `poll_reply`: the whole text of a poll where nothing is offered
/// - `poll`: the text of a poll where nothing is offered
/// - `offer`: the text of a poll where a deployment is offered
/// - `cancel`: the text of a cancel
/// - `deployment`: the text of a deployment of one module with one artifact, whose digest is the same byte 32 times
pub fn texts()
    ensures refused { (refusal : Refusal) → text_of (parts_of (Refused refusal)) ≡ refusal_text refusal }
    ensures poll_reply { text_of (parts_of (PollShown (codes "dev-01") None))
        ≡ codes "HTTP/1.1 200 OK\r\nContent-Type: application/json\r\nContent-Length: 55\r\n\r\n{\"_links\":{},"
        ++ codes "\"config\":{\"polling\":{\"sleep\":\"00:05:00\"}}}" }
    ensures poll { compact_text (poll_data (codes "dev-01") None) ≡ codes "{\"_links\":{},\"config\":{\"polling\":{\"sleep\":\"00:05:00\"}}}" }
    ensures offer { compact_text (poll_data (codes "dev-04") (Some (record { action = 4; canceling = false })))
        ≡ codes "{\"_links\":{\"deploymentBase\":{\"href\":\"/DEFAULT/controller/v1/dev-04/deploymentBase/4\"}},"
        ++ codes "\"config\":{\"polling\":{\"sleep\":\"00:05:00\"}}}" }
    ensures cancel { compact_text (cancel_data 1) ≡ codes "{\"cancelAction\":{\"stopId\":\"1\"},\"id\":\"1\"}" }
    ensures deployment { compact_text (deployment_data (record {
      target = codes "dev-01";
      action = 1;
      chunks = record {
        module_number = 1;
        label = record { name = codes "app"; kind = codes "os"; version = codes "1.0" };
        artifacts = record { number = 1; filename = codes "abc.bin"; size = 3; digest = replicate 32 171 } ∷ [];
      } ∷ [];
    }))
        ≡ codes "{\"deployment\":{\"chunks\":[{\"artifacts\":[{\"_links\":{\"download-http\":{\"href\":"
        ++ codes "\"/DEFAULT/controller/v1/dev-01/softwaremodules/1/artifacts/abc.bin\"}},\"filename\":\"abc.bin\","
        ++ codes "\"hashes\":{\"sha256\":\"abababababababababababababababababababababababababababababababab\"},\"size\":3}],"
        ++ codes "\"name\":\"app\",\"part\":\"os\",\"version\":\"1.0\"}],\"download\":\"forced\",\"update\":\"forced\"},"
        ++ codes "\"id\":\"1\"}" }
{}
