//! The channel of a streaming erasure code, the losses that it admits, their windows, and the classes of losses.
#![tactic(auto)]

mod certificate;
mod channel;
mod classes;
mod flags;
mod loss;

pub use certificate::{Certificate, MAX_PERIOD, one_certificate};
pub use channel::{BadChannel, Channel, MAX_DEADLINE, MAX_WINDOW, one_channel};
pub use classes::{Classes, MAX_CLASSES, TooManyClasses, classes_are_all_classes, loss_classes};
pub use flags::{Flags, MAX_FLAGS};
pub use loss::first_bad_window;
