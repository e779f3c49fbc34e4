//! Tests of the public calls of `fork_context` and `context_values`.
mod calls;
mod happening;
mod histories;
mod new_rows;
mod play;
mod short_histories;
mod values;
