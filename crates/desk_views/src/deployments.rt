//! What devices are to install: deployments, and the contents of their artifacts.

ghost use Rattle.std.specs.Prelude.{◌≡◌, ℕ, true, ◌++◌, [], IfOk, Some, map, nat_eq};
ghost use Rattle.std.specs.List.{find, list_any};
ghost use Rattle.std.specs.Option.{option_copied, option_map};
ghost use Rattle.rollout_machine.specs.Answers.{modules_offered, query_reply};
ghost use Rattle.rollout_machine.specs.ByteStrings.{item_numbered, same_bytes};
ghost use Rattle.rollout_machine.specs.Objects.{chunks_of, chunks_of_module, modules_of_action, modules_of_rollout};
ghost use Rattle.rollout_machine.specs.Offers.{offer};
ghost use Rattle.rollout_machine.specs.Requests.{Download, ShowDeployment};
ghost use Rattle.rollout_machine.specs.Views.{chunk, reply_of};
ghost use Rattle.desk_records.specs.declared.rollout_row.StoredRollout.{StoredRollout};
ghost use Rattle.rollout_model.specs.declared.artifact.Artifact.{Artifact};
ghost use Rattle.desk_reads.specs.AtLists.{FailsAtListsIn};
ghost use Rattle.desk_views.specs.Downloads.{downloadable, named};
ghost use Rattle.desk_views.specs.Kept.{AreKept, TellsKept};
ghost use Rattle.desk_views.specs.Sizes.{AgreesIn, IsOfName, KeepsSize};
ghost use Rattle.desk_store.specs.Changing.{FindsIn, KeepsTables, StaysIn};
ghost use Rattle.desk_store.specs.KeptOffers.{IsKeptAs};

use crate::artifacts::read_contents;
use crate::devices::is_offer_of;
use desk_reads::knows_device;
use desk_store::{
    Calls, Fault, StoredRollout, read_action, read_module, read_module_artifacts, read_offer,
    read_rollout, read_set_modules,
};
use rollout_model::{
    ActionNo, Artifact, Chunk, ControllerId, Credential, Deployment, Filename, ModuleNo, Offer,
    Refusal, Reply, RolloutNo, SetNo,
};
use sqlite::Alter;
use std::alloc::Global;

/// Shows a device the deployment of the action that it is offered.
pub fn show_deployment<S: Alter>(
    alloc: Global,
    calls: &mut Calls<S>,
    device: &Credential,
    number: ActionNo,
) -> Result<Reply, Fault>
    ensures stays { StaysIn S.Store calls.old calls.new result }
    ensures reads { FindsIn S.Store calls.old calls.new result (λ now reply. reply_of reply ≡ query_reply now (ShowDeployment device.now number)) }
    ensures kept { AgreesIn S.Store calls.old calls.new result (λ t reply. TellsKept t device.now.id (reply_of reply)) }
    ensures fails { FailsAtListsIn S.Store calls.old calls.new result }
{
    if !knows_device(calls, device)? {
        return Ok(Reply::Refused(Refusal::Unauthorized));
    }
    let offer = read_offer(calls, &device.id)?;
    if !is_offer_of(offer, number, false) {
        return Ok(Reply::Refused(Refusal::NotFound));
    }
    let chunks = read_chunks(alloc, calls, number)?;
    Ok(Reply::Deployment(Deployment {
        target: device.id,
        action: number,
        chunks,
    }))
}

/// The modules that an action installs, with their artifacts.
fn read_chunks<S: Alter>(
    alloc: Global,
    calls: &mut Calls<S>,
    number: ActionNo,
) -> Result<Vec<Chunk>, Fault>
    ensures stays { StaysIn S.Store calls.old calls.new result }
    ensures reads { FindsIn S.Store calls.old calls.new result
        (λ now chunks. map chunk chunks.items ≡ chunks_of now (modules_of_action now (item_numbered now.actions number))) }
    ensures fails { FailsAtListsIn S.Store calls.old calls.new result }
{
    let modules = read_action_modules(alloc, calls, number)?;
    read_module_chunks(alloc, calls, modules)
}

/// These modules, with their artifacts.
fn read_module_chunks<S: Alter>(
    alloc: Global,
    calls: &mut Calls<S>,
    modules: Vec<ModuleNo>,
) -> Result<Vec<Chunk>, Fault>
    ensures stays { StaysIn S.Store calls.old calls.new result }
    ensures reads { FindsIn S.Store calls.old calls.new result (λ now chunks. map chunk chunks.items ≡ chunks_of now modules.items) }
    ensures fails { FailsAtListsIn S.Store calls.old calls.new result }
{
    let mut chunks = Vec::new(alloc);
    for module_number in modules {
        add_chunk(calls, module_number, &mut chunks)?;
    }
    Ok(chunks)
}

/// Adds a module with its artifacts, where it is there.
fn add_chunk<S: Alter>(
    calls: &mut Calls<S>,
    module_number: ModuleNo,
    chunks: &mut Vec<Chunk>,
) -> Result<(), Fault>
    ensures stays { StaysIn S.Store calls.old calls.new result }
    ensures reads { FindsIn S.Store calls.old calls.new result
        (λ now _. map chunk chunks.new.items ≡ map chunk chunks.old.items ++ chunks_of_module now module_number (item_numbered now.modules module_number)) }
    ensures fails { FailsAtListsIn S.Store calls.old calls.new result }
{
    let label = match read_module(calls, module_number)? {
        Some(label) => label,
        None => return Ok(()),
    };
    let artifacts = read_module_artifacts(calls, module_number)?;
    let chunk = Chunk {
        module_number,
        label,
        artifacts,
    };
    chunks.push(chunk)?;
    Ok(())
}

/// The modules that an action installs, in the order of its set.
fn read_action_modules<S: Alter>(
    alloc: Global,
    calls: &mut Calls<S>,
    number: ActionNo,
) -> Result<Vec<ModuleNo>, Fault>
    ensures stays { StaysIn S.Store calls.old calls.new result }
    ensures keeps { KeepsTables S.Store calls.old calls.new result }
    ensures reads { FindsIn S.Store calls.old calls.new result (λ now modules. modules.items ≡ modules_of_action now (item_numbered now.actions number)) }
    ensures fails { FailsAtListsIn S.Store calls.old calls.new result }
{
    match read_action(calls, number)? {
        Some(action) => read_rollout_modules(alloc, calls, action.rollout),
        None => Ok(Vec::new(alloc)),
    }
}

/// The modules that a rollout installs, in the order of its set.
fn read_rollout_modules<S: Alter>(
    alloc: Global,
    calls: &mut Calls<S>,
    number: RolloutNo,
) -> Result<Vec<ModuleNo>, Fault>
    ensures stays { StaysIn S.Store calls.old calls.new result }
    ensures keeps { KeepsTables S.Store calls.old calls.new result }
    ensures reads { FindsIn S.Store calls.old calls.new result (λ now modules. modules.items ≡ modules_of_rollout now (item_numbered now.rollouts number)) }
    ensures fails { FailsAtListsIn S.Store calls.old calls.new result }
{
    let found = read_rollout(calls, number.get())?;
    match set_of(&found) {
        Some(set_number) => read_set_modules(calls, set_number),
        None => Ok(Vec::new(alloc)),
    }
}

/// The set of a rollout that was found.
fn set_of(found: &Option<StoredRollout>) -> Option<SetNo>
    ensures { result ≡ option_map (λ (rollout : StoredRollout). rollout.plan.set_number) found.now }
{
    match found {
        Some(rollout) => Some(rollout.plan.set_number),
        None => None,
    }
}

/// Shows a device the contents of an artifact of what it is offered as a deployment.
pub fn show_download<S: Alter>(
    alloc: Global,
    calls: &mut Calls<S>,
    device: &Credential,
    module_number: ModuleNo,
    filename: &Filename,
) -> Result<Reply, Fault>
    ensures stays { StaysIn S.Store calls.old calls.new result }
    ensures reads { FindsIn S.Store calls.old calls.new result
        (λ now reply. reply_of reply ≡ query_reply now (Download device.now module_number filename.now)) }
    ensures fails { FailsAtListsIn S.Store calls.old calls.new result }
    ensures sized { AgreesIn S.Store calls.old calls.new result (λ t reply. KeepsSize t (Download device.now module_number filename.now) (reply_of reply)) }
    ensures kept { AgreesIn S.Store calls.old calls.new result (λ t reply. TellsKept t device.now.id (reply_of reply)) }
{
    match find_download(alloc, calls, device, module_number, filename)? {
        Ok(artifact) => {
            let contents = read_contents(alloc, calls, artifact.number, artifact.size)?;
            Ok(Reply::Contents(contents))
        }
        Err(refusal) => Ok(Reply::Refused(refusal)),
    }
}

/// Finds the artifact whose contents a device asks for, or else what the download is refused with.
pub fn find_download<S: Alter>(
    alloc: Global,
    calls: &mut Calls<S>,
    device: &Credential,
    module_number: ModuleNo,
    filename: &Filename,
) -> Result<Result<Artifact, Refusal>, Fault>
    ensures stays { StaysIn S.Store calls.old calls.new result }
    ensures reads { FindsIn S.Store calls.old calls.new result (λ now found. found ≡ downloadable now device.now module_number filename.now) }
    ensures fails { FailsAtListsIn S.Store calls.old calls.new result }
    ensures agrees { AgreesIn S.Store calls.old calls.new result (λ t found. IfOk found (IsOfName t module_number filename.now)) }
    ensures kept { AgreesIn S.Store calls.old calls.new result (λ t found. IfOk found (λ _. (action : ℕ) × IsKeptAs t device.now.id action)) }
{
    if !knows_device(calls, device)? {
        return Ok(Err(Refusal::Unauthorized));
    }
    let modules = read_offered_modules(alloc, calls, &device.id)?;
    if !is_among(&modules, module_number) {
        return Ok(Err(Refusal::NotFound));
    }
    let artifacts = read_module_artifacts(calls, module_number)?;
    Ok(named(&artifacts, filename))
}

/// The modules of what a target is offered as a deployment.
fn read_offered_modules<S: Alter>(
    alloc: Global,
    calls: &mut Calls<S>,
    id: &ControllerId,
) -> Result<Vec<ModuleNo>, Fault>
    ensures stays { StaysIn S.Store calls.old calls.new result }
    ensures keeps { KeepsTables S.Store calls.old calls.new result }
    ensures reads { FindsIn S.Store calls.old calls.new result (λ now modules. modules.items ≡ modules_offered now (offer now id.now)) }
    ensures kept { AgreesIn S.Store calls.old calls.new result (λ t modules. AreKept t id.now modules.items) }
    ensures fails { FailsAtListsIn S.Store calls.old calls.new result }
{
    match read_offer(calls, id)? {
        Some(offer) => read_installed(alloc, calls, offer),
        None => Ok(Vec::new(alloc)),
    }
}

/// The modules that an offer installs: none where it is a cancel.
fn read_installed<S: Alter>(
    alloc: Global,
    calls: &mut Calls<S>,
    offer: Offer,
) -> Result<Vec<ModuleNo>, Fault>
    ensures stays { StaysIn S.Store calls.old calls.new result }
    ensures keeps { KeepsTables S.Store calls.old calls.new result }
    ensures reads { FindsIn S.Store calls.old calls.new result (λ now modules. modules.items ≡ modules_offered now (Some offer)) }
    ensures none { IfOk result (λ modules. offer.canceling ≡ true → modules.items ≡ []) }
    ensures fails { FailsAtListsIn S.Store calls.old calls.new result }
{
    if offer.canceling {
        return Ok(Vec::new(alloc));
    }
    read_action_modules(alloc, calls, offer.action)
}

fn is_among(numbers: &[ModuleNo], number: ModuleNo) -> bool
    ensures { result ≡ list_any (λ n. nat_eq n number) numbers.now }
{
    numbers.contains(&number)
}

/// The first of these artifacts that has the name.
fn named(artifacts: &[Artifact], filename: &Filename) -> Result<Artifact, Refusal>
    ensures { result ≡ named filename.now artifacts.now }
{
    match first_named(artifacts, filename) {
        Some(artifact) => Ok(*artifact),
        None => Err(Refusal::NotFound),
    }
}

fn first_named<'a>(artifacts: &'a [Artifact], filename: &Filename) -> Option<&'a Artifact>
    ensures { option_copied result ≡ find (λ (artifact : Artifact). same_bytes artifact.filename filename.now) artifacts.now }
{
    artifacts
        .iter()
        .find(|artifact| has_name(artifact, filename))
}

fn has_name(artifact: &Artifact, filename: &Filename) -> bool
    ensures { result ≡ same_bytes artifact.now.filename filename.now }
{
    artifact.filename.as_str() == filename.as_str()
}
