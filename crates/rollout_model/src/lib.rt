//! The data of a staged firmware rollout: texts and numbers that keep their rules, refusals, and requests with their
//! replies.
#![tactic(auto)]

mod action_word;
mod approval;
mod artifact;
mod cancel;
mod config_data;
mod contents;
mod credential;
mod detail;
mod details;
mod digest;
mod distribution_set;
mod feedback;
mod feedback_number;
mod filename;
mod filter_text;
mod group_count;
mod group_definition;
mod group_rule;
mod group_word;
mod grouping;
mod inline_bytes;
mod items;
mod letters;
pub mod limits;
mod module;
mod module_list;
mod number;
mod page;
mod percentage;
mod refusal;
mod request;
mod rollout;
mod rollout_plan;
mod rollout_word;
mod shown_target;
mod tags;
mod target;
mod target_row;
mod target_word;
mod text;
mod token;
mod value;
mod word;

pub use action_word::ActionWord;
pub use approval::Approval;
pub use artifact::{Artifact, Upload};
pub use cancel::Cancel;
pub use config_data::ConfigData;
pub use contents::Contents;
pub use credential::Credential;
pub use detail::Detail;
pub use details::Details;
pub use digest::Digest;
pub use distribution_set::{DistributionSet, SetLabel};
pub use feedback::{
    CancelWord, DeploymentWord, DeviceFeedback, HistoryEntry, NoteWord, Reported, Said,
};
pub use feedback_number::FeedbackNumber;
pub use filename::Filename;
pub use filter_text::FilterText;
pub use group_count::GroupCount;
pub use group_definition::{GroupDefinition, GroupDefinitions};
pub use group_rule::GroupRule;
pub use group_word::GroupWord;
pub use grouping::Grouping;
pub use inline_bytes::InlineBytes;
pub use items::Items;
pub use module::{Module, ModuleLabel};
pub use module_list::ModuleList;
pub use number::{
    ActionKind, ActionNo, ArtifactKind, ArtifactNo, ModuleKind, ModuleNo, Number, RolloutKind,
    RolloutNo, SetKind, SetNo,
};
pub use page::{Page, PageOf};
pub use percentage::Percentage;
pub use refusal::Refusal;
pub use request::{Command, Query, Reply, Request};
pub use rollout::{Action, Chunk, Deployment, Group, NumberedEntry, Offer, Rollout, RolloutReport};
pub use rollout_plan::RolloutPlan;
pub use rollout_word::RolloutWord;
pub use shown_target::ShownTarget;
pub use tags::Tags;
pub use target::{Attribute, Attributes, Target};
pub use target_row::{TargetRow, TargetRows};
pub use target_word::TargetWord;
pub use text::Text;
pub use token::Token;
pub use value::Value;
pub use word::{ControllerId, LabelKind, TargetKind, Word};
