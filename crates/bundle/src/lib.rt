//! Bundles: what the EC2 API's Describe calls print of an account, as one JSON value, and the network that
//! it describes.
//!
//! A bundle is one JSON object, or an array of objects whose lists of one name are joined. It is read list
//! by list, row by row and field by field; the first fault is the answer. What is read is then tested:
//! the first reason why its rows make no network is the answer.
#![tactic(auto)]

mod instances;
mod reader;
mod refusal;

pub use reader::{network_of, read_bundle, read_json};
pub use refusal::BundleRefusal;
