//! RTP packets (RFC 3550, 5.1): the reader of a packet, which refuses what isn't one, and the writer of a plain head.
#![tactic(auto)]

mod head;
mod not_rtp;
mod reading_laws;
mod view;

pub use head::write_head;
pub use not_rtp::NotRtp;
pub use reading_laws::one_reading;
pub use view::RtpView;

#[cfg(test)]
mod tests;
