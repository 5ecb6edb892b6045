//! What a message asks.

ghost use Rattle.std.specs.Prelude.{◌≡◌, ◌≢◌, ◌⊎◌, true, false, None, IfOk, IfErr};
ghost use Rattle.http_wire.specs.Inbox.{message_of};
ghost use Rattle.rollout_model.specs.declared.refusal.Refusal.TheVariants.{NoMemory, StoreFailed};
ghost use Rattle.rollout_machine.specs.Requests.{Rejected, Asks};
ghost use Rattle.rollout_machine.specs.Views.{request_of};
ghost use Rattle.request_target.specs.Routes.{route_of};
ghost use Rattle.ddi_api.specs.Routes.{device_table};
ghost use Rattle.mgmt_api.specs.Routes.{manage_table};
ghost use Rattle.stream_server.specs.Interfaces.{reading};

use crate::Interface;
use ddi_api::{DeviceRoutes, read_device};
use http_wire::Message;
use mgmt_api::{ManageRoutes, read_manage};
use request_target::segment_at;
use rollout_model::{Refusal, Request};
use std::alloc::Global;

/// Whether a path may be a device's: each of theirs begins by one word, and none of management does.
fn begins_as_devices(path: &[u8]) -> bool
    ensures devices { result ≡ true → route_of manage_table path.now ≡ None }
    ensures others { result ≡ false → route_of device_table path.now ≡ None }
{
    match segment_at(path, 1) {
        Some(word) => word == b"DEFAULT".as_slice(),
        None => false,
    }
}

/// The routes of an interface.
#[derive(Drop)]
pub(crate) struct Routes {
    interface: Interface,
    devices: DeviceRoutes,
    manage: ManageRoutes,
}

impl Routes {
    /// Refused for want of memory alone.
    pub(crate) fn make(alloc: Global, interface: Interface) -> Result<Routes, Refusal>
        ensures interface { IfOk result (λ routes. routes.interface ≡ interface) }
        ensures memory { IfErr result (λ refusal. refusal ≡ NoMemory) }
    {
        let devices = DeviceRoutes::make(alloc)?;
        let manage = ManageRoutes::make(alloc)?;
        Ok(Routes {
            interface,
            devices,
            manage,
        })
    }

    /// What a message asks where both interfaces are served. Only the router of one is asked.
    #[tactic(auto, unfolding(crate::specs::Interfaces::reading))]
    fn read_either(&self, message: &Message<'_>) -> Result<Request, Refusal>
        ensures ok { IfOk result (λ request. reading Interface.Both (message_of message.now) ≡ Asks (request_of request)) }
        ensures err { IfErr result (λ refusal. (refusal ≡ NoMemory)
            ⊎ (reading Interface.Both (message_of message.now) ≡ Rejected refusal)) }
        ensures no_store { IfErr result (λ refusal. refusal ≢ StoreFailed) }
    {
        if begins_as_devices(message.path()) {
            read_device(&self.devices, message)
        } else {
            read_manage(&self.manage, message)
        }
    }

    /// What a message asks, or its refusal.
    #[tactic(auto, unfolding(crate::specs::Interfaces::reading))]
    pub(crate) fn read(&self, message: &Message<'_>) -> Result<Request, Refusal>
        ensures ok { IfOk result (λ request. reading self.now.interface (message_of message.now) ≡ Asks (request_of request)) }
        ensures err { IfErr result (λ refusal. (refusal ≡ NoMemory) ⊎ (reading self.now.interface (message_of message.now) ≡ Rejected refusal)) }
        ensures no_store { IfErr result (λ refusal. refusal ≢ StoreFailed) }
    {
        match self.interface {
            Interface::Devices => read_device(&self.devices, message),
            Interface::Management => read_manage(&self.manage, message),
            Interface::Both => self.read_either(message),
        }
    }
}
