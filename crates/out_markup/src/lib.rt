//! Elements of XML and HTML, and texts in them, escaped so that they make no markup.
#![tactic(auto)]

pub mod laws;
mod markup;

pub use markup::{
    push_attribute, push_escaped, push_escaped_within, push_held, push_number_attribute,
    push_shortened,
};
