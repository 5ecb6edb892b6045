//! The calls: what a route is asked by a method.

ghost use Rattle.std.specs.Prelude.{◌≡◌, [], ◌∷◌, codes};
ghost use Rattle.mgmt_api.specs.Calls.{calls_of};
ghost use Rattle.request_target.specs.Queries.{value_of};

use crate::routes::ManageRoute;
use crate::turn::RolloutTurn;

/// A call of the management interface.
#[derive(Clone, Copy)]
pub enum ManageCall {
    /// `GET /rest/v1/softwaremodules`
    ShowModules,
    /// `POST /rest/v1/softwaremodules`
    AddModule,
    /// `GET /rest/v1/softwaremodules/{module}`
    ShowModule,
    /// `GET /rest/v1/softwaremodules/{module}/artifacts`
    ShowArtifacts,
    /// `POST /rest/v1/softwaremodules/{module}/artifacts`
    AddArtifact,
    /// `GET /rest/v1/softwaremodules/{module}/artifacts/{artifact}`
    ShowArtifact,
    /// `GET /rest/v1/softwaremodules/{module}/artifacts/{artifact}/download`
    ShowContents,
    /// `GET /rest/v1/distributionsets`
    ShowSets,
    /// `POST /rest/v1/distributionsets`
    AddSet,
    /// `GET /rest/v1/distributionsets/{set}`
    ShowSet,
    /// `GET /rest/v1/targets`
    ShowTargets,
    /// `POST /rest/v1/targets`
    PutTargets,
    /// `GET /rest/v1/targets/{target}`
    ShowTarget,
    /// `POST /rest/v1/targets/{target}/tags/{tag}`
    Tag,
    /// `DELETE /rest/v1/targets/{target}/tags/{tag}`
    Untag,
    /// `GET /rest/v1/targets/{target}/actions`
    ShowTargetActions,
    /// `GET /rest/v1/targets/{target}/actions/{action}`
    ShowAction,
    /// `DELETE /rest/v1/targets/{target}/actions/{action}`
    CancelAction,
    /// `GET /rest/v1/targets/{target}/actions/{action}/status`
    ShowHistory,
    /// `GET /rest/v1/rollouts`
    ShowRollouts,
    /// `POST /rest/v1/rollouts`
    CreateRollout,
    /// `GET /rest/v1/rollouts/{rollout}`
    ShowRollout,
    /// `POST /rest/v1/rollouts/{rollout}/start`, and in the same way each other turn
    TurnRollout(RolloutTurn),
    /// `GET /rest/v1/rollouts/{rollout}/deploygroups`
    ShowGroups,
    /// `GET /rest/v1/rollouts/{rollout}/deploygroups/{group}`
    ShowGroup,
    /// `GET /rest/v1/rollouts/{rollout}/deploygroups/{group}/targets`
    ShowGroupTargets,
    /// `GET /desk/v1/rollouts/{rollout}/report`
    ShowReport,
    /// `GET /desk/v1/rollouts/{rollout}/actions`
    ShowActionsTable,
    /// `POST /desk/v1/import`
    Import,
}

/// The call of a route that has one method.
fn only_by(its_method: &[u8], call: ManageCall, method: &[u8]) -> Option<ManageCall>
    ensures { result ≡ value_of method.now ((its_method.now, call) ∷ []) }
{
    if its_method == method {
        Some(call)
    } else {
        None
    }
}

/// The call of a list's route, which shows the list or adds to it.
fn of_list(shown: ManageCall, added: ManageCall, method: &[u8]) -> Option<ManageCall>
    ensures { result ≡ value_of method.now ((codes "GET", shown) ∷ (codes "POST", added) ∷ []) }
{
    if b"GET".as_slice() == method {
        Some(shown)
    } else {
        only_by(b"POST", added, method)
    }
}

/// The call of a tag's route, which gives the tag or takes it.
fn of_tag(method: &[u8]) -> Option<ManageCall>
    ensures { result ≡ value_of method.now ((codes "POST", ManageCall.Tag) ∷ (codes "DELETE", ManageCall.Untag) ∷ []) }
{
    if b"POST".as_slice() == method {
        Some(ManageCall::Tag)
    } else {
        only_by(b"DELETE", ManageCall::Untag, method)
    }
}

/// The call of an action's route, which shows the action or cancels it.
fn of_action(method: &[u8]) -> Option<ManageCall>
    ensures { result ≡ value_of method.now ((codes "GET", ManageCall.ShowAction) ∷ (codes "DELETE", ManageCall.CancelAction) ∷ []) }
{
    if b"GET".as_slice() == method {
        Some(ManageCall::ShowAction)
    } else {
        only_by(b"DELETE", ManageCall::CancelAction, method)
    }
}

/// The call of a route by a method, if the route has the method.
pub fn call_of(route: ManageRoute, method: &[u8]) -> Option<ManageCall>
    ensures { result ≡ value_of method.now (calls_of route) }
{
    match route {
        ManageRoute::Modules => of_list(ManageCall::ShowModules, ManageCall::AddModule, method),
        ManageRoute::Module => only_by(b"GET", ManageCall::ShowModule, method),
        ManageRoute::Artifacts => {
            of_list(ManageCall::ShowArtifacts, ManageCall::AddArtifact, method)
        }
        ManageRoute::Artifact => only_by(b"GET", ManageCall::ShowArtifact, method),
        ManageRoute::Contents => only_by(b"GET", ManageCall::ShowContents, method),
        ManageRoute::Sets => of_list(ManageCall::ShowSets, ManageCall::AddSet, method),
        ManageRoute::Set => only_by(b"GET", ManageCall::ShowSet, method),
        ManageRoute::Targets => of_list(ManageCall::ShowTargets, ManageCall::PutTargets, method),
        ManageRoute::Target => only_by(b"GET", ManageCall::ShowTarget, method),
        ManageRoute::TargetTag => of_tag(method),
        ManageRoute::TargetActions => only_by(b"GET", ManageCall::ShowTargetActions, method),
        ManageRoute::Action => of_action(method),
        ManageRoute::History => only_by(b"GET", ManageCall::ShowHistory, method),
        ManageRoute::Rollouts => {
            of_list(ManageCall::ShowRollouts, ManageCall::CreateRollout, method)
        }
        ManageRoute::Rollout => only_by(b"GET", ManageCall::ShowRollout, method),
        ManageRoute::Turned(turn) => only_by(b"POST", ManageCall::TurnRollout(turn), method),
        ManageRoute::Groups => only_by(b"GET", ManageCall::ShowGroups, method),
        ManageRoute::Group => only_by(b"GET", ManageCall::ShowGroup, method),
        ManageRoute::GroupTargets => only_by(b"GET", ManageCall::ShowGroupTargets, method),
        ManageRoute::Report => only_by(b"GET", ManageCall::ShowReport, method),
        ManageRoute::ActionsTable => only_by(b"GET", ManageCall::ShowActionsTable, method),
        ManageRoute::Import => only_by(b"POST", ManageCall::Import, method),
    }
}
