//! The values that come where any may come.

use bz_model::{NetError, Value};
use std::alloc::{AllocError, Global};

/// A value that came at a port, and the group of lines that had begun last.
#[derive(Clone, Copy)]
pub struct Came {
    pub group: usize,
    pub value: Value,
}

/// No values at each of so many ports.
pub(crate) fn no_values(alloc: Global, ports: usize) -> Result<Vec<Vec<Came>>, NetError> {
    let mut values = Vec::new(alloc);
    for _ in 0..ports {
        if values.push(Vec::new(alloc)).is_err() {
            return Err(NetError::Memory);
        }
    }
    Ok(values)
}

/// Adds a value that came at a port.
pub(crate) fn add_value(values: &mut [Vec<Came>], port: u32, came: Came) -> Result<(), AllocError> {
    match values.get_mut((port as usize).saturating_sub(1)) {
        Some(values) => {
            values.push(came)?;
            Ok(())
        }
        None => Ok(()),
    }
}
