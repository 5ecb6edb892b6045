//! The routes of the device interface.

ghost use Rattle.std.specs.Prelude.{◌≡◌, IfOk, IfErr};
ghost use Rattle.rollout_model.specs.declared.refusal.Refusal.TheVariants.{NoMemory};
ghost use Rattle.ddi_api.specs.Routes.{device_rows, device_table};

use crate::call::DeviceCall;
use matchit::Router;
use request_target::{route_of, router_of};
use rollout_model::Refusal;
use std::alloc::{AllocError, Global};
use std::str;

/// The routes of the device interface, each found by its path.
#[derive(Drop)]
pub struct DeviceRoutes {
    router: Router<DeviceCall>,
    alloc: Global,
    ghost by_table: { router ≡ device_rows },
}

/// Each route with what it leads to.
const ROUTES: [(&str, DeviceCall); 7] = [
    ("/DEFAULT/controller/v1/{controller}", DeviceCall::Poll),
    (
        "/DEFAULT/controller/v1/{controller}/deploymentBase/{action}",
        DeviceCall::ShowDeployment,
    ),
    (
        "/DEFAULT/controller/v1/{controller}/deploymentBase/{action}/feedback",
        DeviceCall::Feedback,
    ),
    (
        "/DEFAULT/controller/v1/{controller}/cancelAction/{action}",
        DeviceCall::ShowCancel,
    ),
    (
        "/DEFAULT/controller/v1/{controller}/cancelAction/{action}/feedback",
        DeviceCall::CancelFeedback,
    ),
    (
        "/DEFAULT/controller/v1/{controller}/configData",
        DeviceCall::PutAttributes,
    ),
    (
        "/DEFAULT/controller/v1/{controller}/softwaremodules/{module}/artifacts/{filename}",
        DeviceCall::Download,
    ),
];

fn device_router(alloc: Global) -> Result<Router<DeviceCall>, AllocError>
    ensures { IfOk result (λ r. r ≡ device_rows) }
{
    router_of(alloc, &ROUTES)
}

impl DeviceRoutes {
    ghost use Rattle.request_target.specs.Routes.{route_of};

    /// All routes. Refused for want of memory alone.
    pub fn make(alloc: Global) -> Result<DeviceRoutes, Refusal>
        ensures { IfErr result (λ e. e ≡ NoMemory) }
    {
        let router = device_router(alloc)?;
        Ok(DeviceRoutes { router, alloc })
    }

    /// The call whose route the path is, compared segment by segment and as it is written.
    pub fn find(&self, path: &[u8]) -> Option<DeviceCall>
        ensures { result ≡ route_of device_table path.now }
    {
        match str::from_utf8(path) {
            Ok(path) => route_of(&self.router, path),
            Err(_) => None,
        }
    }

    /// The allocator that the routes were made with.
    pub(crate) fn alloc(&self) -> Global {
        self.alloc
    }
}
