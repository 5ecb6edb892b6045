//! The objects that devices are shown.

ghost use Rattle.std.specs.Prelude.{◌≡◌, ◌++◌, codes, decimal, map, Some, IfOk, string_bytes};
ghost use Rattle.json.specs.Print.{quoted};
ghost use Rattle.serde_json.specs.Data.{member, no_members, object};
ghost use Rattle.serde_json.specs.View.{view};
ghost use Rattle.serde_json.specs.Written.{compact_text};
ghost use Rattle.mgmt_objects.specs.ArtifactObjects.{hashes_data};
ghost use Rattle.rollout_machine.specs.Views.{chunk, deployment};
ghost use Rattle.ddi_api.specs.Letters.{offer_letters};
ghost use Rattle.ddi_api.specs.Objects.{action_path, device_artifact_data, cancel_data, chunk_data, deployment_data, deployment_object};
ghost use Rattle.ddi_api.specs.Objects.{download_path, link_data, offer_kind, poll_data, shown_chunk};

use artifact_pieces::digest_text;
use itoa::Buffer;
use json::Writer;
use rollout_model::{
    ActionNo, Artifact, Chunk, ControllerId, Deployment, Filename, ModuleNo, Offer,
};
use serde_json::{Value, json};
use std::alloc::{AllocError, Global};

/// Room for the path of any action.
const PATH_CAPACITY: usize = 128;

/// Room for the text of any poll.
const POLL_CAPACITY: usize = 256;

fn number_text(alloc: Global, number: u32) -> Result<String, AllocError>
    ensures { IfOk result (λ s. string_bytes s ≡ decimal number) }
{
    format!(in alloc; "{number}")
}

/// The path of an action of the device, as a deployment or as a cancel.
fn action_path(
    alloc: Global,
    id: &ControllerId,
    kind: &str,
    action: ActionNo,
) -> Result<String, AllocError>
    ensures { IfOk result (λ s. string_bytes s ≡ action_path id.now kind.now action) }
{
    let mut number = Buffer::new();
    let mut path = String::with_capacity(alloc, PATH_CAPACITY)?;
    path.push_str("/DEFAULT/controller/v1/")?;
    path.push_str(id.as_str())?;
    path.push_str("/")?;
    path.push_str(kind)?;
    path.push_str("/")?;
    path.push_str(number.format(action.get()))?;
    Ok(path)
}

/// The path of an artifact of a module.
fn download_path(
    alloc: Global,
    id: &ControllerId,
    module_number: ModuleNo,
    filename: &Filename,
) -> Result<String, AllocError>
    ensures { IfOk result (λ s. string_bytes s ≡ download_path id.now module_number filename.now) }
{
    let number = number_text(alloc, module_number.get())?;
    let mut path = String::new(alloc);
    path.push_str("/DEFAULT/controller/v1/")?;
    path.push_str(id.as_str())?;
    path.push_str("/softwaremodules/")?;
    path.push_str(number.as_str())?;
    path.push_str("/artifacts/")?;
    path.push_str(filename.as_str())?;
    Ok(path)
}

fn link_value(alloc: Global, path: &str) -> Result<Value, AllocError>
    ensures { IfOk result (λ v. view v ≡ link_data path.now) }
{
    json!(in alloc; { "href": path })
}

fn cancel_value(alloc: Global, action: ActionNo) -> Result<Value, AllocError>
    ensures { IfOk result (λ v. view v ≡ cancel_data action) }
{
    let number = number_text(alloc, action.get())?;
    json!(in alloc; {
        "cancelAction": { "stopId": number.as_str() },
        "id": number.as_str(),
    })
}

/// The text of the action that is to be canceled.
pub(crate) fn cancel_text(alloc: Global, action: ActionNo) -> Result<Vec<u8>, AllocError>
    ensures { IfOk result (λ text. text.items ≡ compact_text (cancel_data action)) }
{
    let value = cancel_value(alloc, action)?;
    value.to_vec(alloc)
}

fn offer_kind(canceling: bool) -> &'static str
    ensures { result.now ≡ offer_kind canceling }
{
    if canceling {
        "cancelAction"
    } else {
        "deploymentBase"
    }
}

/// A text and behind it a string, as JSON quotes it.
fn with_string(text: Vec<u8>, string: &str) -> Result<Vec<u8>, AllocError>
    ensures { IfOk result (λ longer. longer.items ≡ text.items ++ quoted string.now) }
{
    let mut writer = Writer::new(text);
    writer.string(string)?;
    Ok(writer.into_inner())
}

/// A text and behind it the link to what is offered.
fn with_offer(
    alloc: Global,
    mut text: Vec<u8>,
    id: &ControllerId,
    offer: Offer,
) -> Result<Vec<u8>, AllocError>
    ensures { IfOk result (λ longer. longer.items ≡ text.items ++ offer_letters id.now (Some offer)) }
{
    let kind = offer_kind(offer.canceling);
    let path = action_path(alloc, id, kind, offer.action)?;
    text.extend_from_slice(b"\"")?;
    text.extend_from_slice(kind.as_bytes())?;
    text.extend_from_slice(b"\":{\"href\":")?;
    let mut text = with_string(text, path.as_str())?;
    text.extend_from_slice(b"}")?;
    Ok(text)
}

/// A text and behind it the links to what is offered, if anything is.
fn with_links(
    alloc: Global,
    text: Vec<u8>,
    id: &ControllerId,
    offer: Option<Offer>,
) -> Result<Vec<u8>, AllocError>
    ensures { IfOk result (λ longer. longer.items ≡ text.items ++ offer_letters id.now offer) }
{
    match offer {
        Some(offer) => with_offer(alloc, text, id, offer),
        None => Ok(text),
    }
}

/// The text of what the device of this id polls. It is asked for most of all, and so written without a value in between.
pub(crate) fn poll_text(
    alloc: Global,
    id: &ControllerId,
    offer: Option<Offer>,
) -> Result<Vec<u8>, AllocError>
    ensures { IfOk result (λ text. text.items ≡ compact_text (poll_data id.now offer)) }
{
    let mut text = Vec::with_capacity(alloc, POLL_CAPACITY)?;
    text.extend_from_slice(b"{\"_links\":{")?;
    let mut text = with_links(alloc, text, id, offer)?;
    text.extend_from_slice(b"},\"config\":{\"polling\":{\"sleep\":\"00:05:00\"}}}")?;
    Ok(text)
}

fn download_link(
    alloc: Global,
    id: &ControllerId,
    module_number: ModuleNo,
    filename: &Filename,
) -> Result<Value, AllocError>
    ensures { IfOk result (λ v. view v ≡ object (member (codes "download-http") (link_data (download_path id.now module_number filename.now)) no_members)) }
{
    let path = download_path(alloc, id, module_number, filename)?;
    let link = link_value(alloc, path.as_str())?;
    json!(in alloc; { "download-http": link })
}

fn hashes_value(alloc: Global, artifact: &Artifact) -> Result<Value, AllocError>
    ensures { IfOk result (λ v. view v ≡ hashes_data artifact.now) }
{
    let digits = digest_text(alloc, &artifact.digest)?;
    json!(in alloc; { "sha256": digits.as_str() })
}

fn artifact_value(
    alloc: Global,
    id: &ControllerId,
    module_number: ModuleNo,
    artifact: &Artifact,
) -> Result<Value, AllocError>
    ensures { IfOk result (λ v. view v ≡ device_artifact_data id.now module_number artifact.now) }
{
    let links = download_link(alloc, id, module_number, &artifact.filename)?;
    let hashes = hashes_value(alloc, artifact)?;
    json!(in alloc; {
        "_links": links,
        "filename": artifact.filename.as_str(),
        "hashes": hashes,
        "size": artifact.size,
    })
}

fn artifact_values(
    alloc: Global,
    id: &ControllerId,
    module_number: ModuleNo,
    artifacts: &[Artifact],
) -> Result<Vec<Value>, AllocError>
    ensures { IfOk result (λ v. map view v.items ≡ map (device_artifact_data id.now module_number) artifacts.now) }
{
    let mut values = Vec::new(alloc);
    for artifact in artifacts {
        let value = artifact_value(alloc, id, module_number, artifact)?;
        values.push(value)?;
    }
    Ok(values)
}

fn chunk_value(alloc: Global, id: &ControllerId, part: &Chunk) -> Result<Value, AllocError>
    ensures { IfOk result (λ v. view v ≡ chunk_data id.now (chunk part.now)) }
{
    let artifacts = artifact_values(alloc, id, part.module_number, part.artifacts.as_slice())?;
    json!(in alloc; {
        "artifacts": Value::Array(artifacts),
        "name": part.label.name.as_str(),
        "part": part.label.kind.as_str(),
        "version": part.label.version.as_str(),
    })
}

fn chunk_values(
    alloc: Global,
    id: &ControllerId,
    chunks: &[Chunk],
) -> Result<Vec<Value>, AllocError>
    ensures { IfOk result (λ v. map view v.items ≡ map (shown_chunk id.now) chunks.now) }
{
    let mut values = Vec::new(alloc);
    for chunk in chunks {
        let value = chunk_value(alloc, id, chunk)?;
        values.push(value)?;
    }
    Ok(values)
}

fn deployment_object(
    alloc: Global,
    action: ActionNo,
    chunks: Vec<Value>,
) -> Result<Value, AllocError>
    ensures { IfOk result (λ v. view v ≡ deployment_object action (map view chunks.items)) }
{
    let number = number_text(alloc, action.get())?;
    json!(in alloc; {
        "deployment": {
            "chunks": Value::Array(chunks),
            "download": "forced",
            "update": "forced",
        },
        "id": number.as_str(),
    })
}

fn deployment_value(alloc: Global, plan: &Deployment) -> Result<Value, AllocError>
    ensures { IfOk result (λ v. view v ≡ deployment_data (deployment plan.now)) }
{
    let chunks = chunk_values(alloc, &plan.target, plan.chunks.as_slice())?;
    deployment_object(alloc, plan.action, chunks)
}

/// The text of what a device is to install.
pub(crate) fn deployment_text(alloc: Global, plan: &Deployment) -> Result<Vec<u8>, AllocError>
    ensures { IfOk result (λ text. text.items ≡ compact_text (deployment_data (deployment plan.now))) }
{
    let value = deployment_value(alloc, plan)?;
    value.to_vec(alloc)
}
