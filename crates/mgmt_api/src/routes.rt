//! The routes of the management interface.

ghost use Rattle.std.specs.Prelude.{◌≡◌, IfOk, IfErr};
ghost use Rattle.rollout_model.specs.declared.refusal.Refusal.TheVariants.{NoMemory};
ghost use Rattle.mgmt_api.specs.Routes.{manage_rows, manage_table};

use crate::turn::RolloutTurn;
use matchit::Router;
use request_target::{route_of, router_of};
use rollout_model::Refusal;
use std::alloc::{AllocError, Global};
use std::str;

/// Where a path leads.
#[derive(Clone, Copy)]
pub enum ManageRoute {
    /// `/rest/v1/softwaremodules`
    Modules,
    /// `/rest/v1/softwaremodules/{module}`
    Module,
    /// `/rest/v1/softwaremodules/{module}/artifacts`
    Artifacts,
    /// `/rest/v1/softwaremodules/{module}/artifacts/{artifact}`
    Artifact,
    /// `/rest/v1/softwaremodules/{module}/artifacts/{artifact}/download`
    Contents,
    /// `/rest/v1/distributionsets`
    Sets,
    /// `/rest/v1/distributionsets/{set}`
    Set,
    /// `/rest/v1/targets`
    Targets,
    /// `/rest/v1/targets/{target}`
    Target,
    /// `/rest/v1/targets/{target}/tags/{tag}`
    TargetTag,
    /// `/rest/v1/targets/{target}/actions`
    TargetActions,
    /// `/rest/v1/targets/{target}/actions/{action}`
    Action,
    /// `/rest/v1/targets/{target}/actions/{action}/status`
    History,
    /// `/rest/v1/rollouts`
    Rollouts,
    /// `/rest/v1/rollouts/{rollout}`
    Rollout,
    /// `/rest/v1/rollouts/{rollout}/start`, and in the same way each other turn
    Turned(RolloutTurn),
    /// `/rest/v1/rollouts/{rollout}/deploygroups`
    Groups,
    /// `/rest/v1/rollouts/{rollout}/deploygroups/{group}`
    Group,
    /// `/rest/v1/rollouts/{rollout}/deploygroups/{group}/targets`
    GroupTargets,
    /// `/desk/v1/rollouts/{rollout}/report`
    Report,
    /// `/desk/v1/rollouts/{rollout}/actions`
    ActionsTable,
    /// `/desk/v1/import`
    Import,
}

/// The routes of the management interface, each found by its path.
#[derive(Drop)]
pub struct ManageRoutes {
    router: Router<ManageRoute>,
    alloc: Global,
    ghost by_table: { router ≡ manage_rows },
}

/// Each route with what it leads to.
const ROUTES: [(&str, ManageRoute); 27] = [
    ("/rest/v1/softwaremodules", ManageRoute::Modules),
    ("/rest/v1/softwaremodules/{module}", ManageRoute::Module),
    (
        "/rest/v1/softwaremodules/{module}/artifacts",
        ManageRoute::Artifacts,
    ),
    (
        "/rest/v1/softwaremodules/{module}/artifacts/{artifact}",
        ManageRoute::Artifact,
    ),
    (
        "/rest/v1/softwaremodules/{module}/artifacts/{artifact}/download",
        ManageRoute::Contents,
    ),
    ("/rest/v1/distributionsets", ManageRoute::Sets),
    ("/rest/v1/distributionsets/{set}", ManageRoute::Set),
    ("/rest/v1/targets", ManageRoute::Targets),
    ("/rest/v1/targets/{target}", ManageRoute::Target),
    (
        "/rest/v1/targets/{target}/tags/{tag}",
        ManageRoute::TargetTag,
    ),
    (
        "/rest/v1/targets/{target}/actions",
        ManageRoute::TargetActions,
    ),
    (
        "/rest/v1/targets/{target}/actions/{action}",
        ManageRoute::Action,
    ),
    (
        "/rest/v1/targets/{target}/actions/{action}/status",
        ManageRoute::History,
    ),
    ("/rest/v1/rollouts", ManageRoute::Rollouts),
    ("/rest/v1/rollouts/{rollout}", ManageRoute::Rollout),
    (
        "/rest/v1/rollouts/{rollout}/approve",
        ManageRoute::Turned(RolloutTurn::Approve),
    ),
    (
        "/rest/v1/rollouts/{rollout}/deny",
        ManageRoute::Turned(RolloutTurn::Deny),
    ),
    (
        "/rest/v1/rollouts/{rollout}/start",
        ManageRoute::Turned(RolloutTurn::Start),
    ),
    (
        "/rest/v1/rollouts/{rollout}/pause",
        ManageRoute::Turned(RolloutTurn::Pause),
    ),
    (
        "/rest/v1/rollouts/{rollout}/resume",
        ManageRoute::Turned(RolloutTurn::Resume),
    ),
    (
        "/rest/v1/rollouts/{rollout}/triggerNextGroup",
        ManageRoute::Turned(RolloutTurn::TriggerNext),
    ),
    (
        "/rest/v1/rollouts/{rollout}/deploygroups",
        ManageRoute::Groups,
    ),
    (
        "/rest/v1/rollouts/{rollout}/deploygroups/{group}",
        ManageRoute::Group,
    ),
    (
        "/rest/v1/rollouts/{rollout}/deploygroups/{group}/targets",
        ManageRoute::GroupTargets,
    ),
    ("/desk/v1/rollouts/{rollout}/report", ManageRoute::Report),
    (
        "/desk/v1/rollouts/{rollout}/actions",
        ManageRoute::ActionsTable,
    ),
    ("/desk/v1/import", ManageRoute::Import),
];

fn manage_router(alloc: Global) -> Result<Router<ManageRoute>, AllocError>
    ensures { IfOk result (λ r. r ≡ manage_rows) }
{
    router_of(alloc, &ROUTES)
}

impl ManageRoutes {
    ghost use Rattle.request_target.specs.Routes.{route_of};

    /// All routes. Refused for want of memory alone.
    pub fn make(alloc: Global) -> Result<ManageRoutes, Refusal>
        ensures { IfErr result (λ e. e ≡ NoMemory) }
    {
        let router = manage_router(alloc)?;
        Ok(ManageRoutes { router, alloc })
    }

    /// Where the path leads, compared segment by segment and as it is written.
    pub fn find(&self, path: &[u8]) -> Option<ManageRoute>
        ensures { result ≡ route_of manage_table path.now }
    {
        match str::from_utf8(path) {
            Ok(path) => route_of(&self.router, path),
            Err(_) => None,
        }
    }

    /// The allocator that the routes were made with.
    pub(crate) fn alloc(&self) -> Global {
        self.alloc
    }
}
