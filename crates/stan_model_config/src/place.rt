//! Where in a value the first fault stands.

use stan_model_neon::text::Text;

/// Where a value is at fault.
#[derive(Debug, Drop)]
pub enum Place {
    /// The value itself.
    Here,
    /// At a key or a position in it. They are written from the outermost on, with `.` between them.
    Below(Text),
}
