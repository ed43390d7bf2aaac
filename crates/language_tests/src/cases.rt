//! Cases that stand in one text: each is a text and, behind `=> `, what is to be said of it.
use std::alloc::{AllocError, Global};
use std::fmt::Debug;

// What is shown is printed as this.
pub fn is_shown<T: Debug>(alloc: Global, shown: &T, want: &str) -> Result<bool, AllocError> {
    Ok(format!(in alloc; "{shown:?}")?.as_str() == want)
}
