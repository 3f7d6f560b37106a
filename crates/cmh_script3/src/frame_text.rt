//! A frame of edition 3 as words.

ghost use Rattle.std.specs.Prelude.{Some};
ghost use Rattle.cmh_script3.specs.Texts.{frame_text};

use cmh_model3::Frame;
use std::fmt;

/// A frame by its name and its numbers.
#[derive(Clone, Copy)]
pub struct FrameText {
    pub frame: Frame,
}

impl fmt::Display for FrameText {
    ghost output = { λ text. Some (frame_text text.frame) };

    fn fmt<W: fmt::Write>(&self, f: &mut fmt::Formatter<W>) -> fmt::Result {
        match self.frame {
            Frame::Request { asker, holder } => write!(f, "request {asker} {holder}"),
            Frame::Reply { holder, asker } => write!(f, "reply {holder} {asker}"),
            Frame::Withdraw { asker, holder } => write!(f, "withdraw {asker} {holder}"),
            Frame::Probe {
                origin,
                stamp,
                from,
                to,
            } => write!(f, "probe {origin} {stamp} {from} {to}"),
        }
    }
}
