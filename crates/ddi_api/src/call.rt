//! The calls: what devices ask.

ghost use Rattle.std.specs.Prelude.{◌≡◌};
ghost use Rattle.ddi_api.specs.Routes.{method_of};

/// A call of the device interface. Each has a route of its own, and one method.
#[derive(Clone, Copy)]
pub enum DeviceCall {
    /// `GET /DEFAULT/controller/v1/{controller}`
    Poll,
    /// `GET /DEFAULT/controller/v1/{controller}/deploymentBase/{action}`
    ShowDeployment,
    /// `POST /DEFAULT/controller/v1/{controller}/deploymentBase/{action}/feedback`
    Feedback,
    /// `GET /DEFAULT/controller/v1/{controller}/cancelAction/{action}`
    ShowCancel,
    /// `POST /DEFAULT/controller/v1/{controller}/cancelAction/{action}/feedback`
    CancelFeedback,
    /// `PUT /DEFAULT/controller/v1/{controller}/configData`
    PutAttributes,
    /// `GET /DEFAULT/controller/v1/{controller}/softwaremodules/{module}/artifacts/{filename}`
    Download,
}

/// The method of a call.
pub fn method_of(call: DeviceCall) -> &'static [u8]
    ensures { result.now ≡ method_of call }
{
    match call {
        DeviceCall::Poll => b"GET",
        DeviceCall::ShowDeployment => b"GET",
        DeviceCall::Feedback => b"POST",
        DeviceCall::ShowCancel => b"GET",
        DeviceCall::CancelFeedback => b"POST",
        DeviceCall::PutAttributes => b"PUT",
        DeviceCall::Download => b"GET",
    }
}
