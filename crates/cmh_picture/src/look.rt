//! How entries and frames look.

use crate::words::got_of;
use cmh_draw::{DrawnEvent, DrawnFrame, EntryMark};
use cmh_frames::Frame;
use cmh_model3::{Event as Event3, Frame as Frame3};

/// How an entry looks.
#[derive(Clone, Copy)]
pub enum Look {
    /// A process of the site did something.
    Act,
    /// A frame came.
    Got,
    /// A process was declared.
    Declared,
    /// A process was declared, and that is over.
    Over,
    /// A process of the site withdrew.
    Withdraw,
}

pub fn look_of(entry: &EntryMark) -> Look {
    match (entry.declared, &entry.event) {
        (Some(declared), _) if declared.is_over => Look::Over,
        (Some(_), _) => Look::Declared,
        (None, DrawnEvent::Newer(Event3::Withdraw { .. })) => Look::Withdraw,
        (None, event) if got_of(event).is_some() => Look::Got,
        (None, _) => Look::Act,
    }
}

/// The kinds of frames.
#[derive(Clone, Copy)]
pub enum FrameLook {
    Request,
    Reply,
    Probe,
    Withdraw,
}

pub fn look_of_frame(frame: DrawnFrame) -> FrameLook {
    match frame {
        DrawnFrame::Older(Frame::Request(_)) | DrawnFrame::Newer(Frame3::Request { .. }) => {
            FrameLook::Request
        }
        DrawnFrame::Older(Frame::Reply(_)) | DrawnFrame::Newer(Frame3::Reply { .. }) => {
            FrameLook::Reply
        }
        DrawnFrame::Older(Frame::Probe(_)) | DrawnFrame::Newer(Frame3::Probe { .. }) => {
            FrameLook::Probe
        }
        DrawnFrame::Newer(Frame3::Withdraw { .. }) => FrameLook::Withdraw,
    }
}

/// The word for a kind of frame, as style sheets have it.
pub fn word_of(frame: DrawnFrame) -> &'static str {
    match look_of_frame(frame) {
        FrameLook::Request => "request",
        FrameLook::Reply => "reply",
        FrameLook::Probe => "probe",
        FrameLook::Withdraw => "withdraw",
    }
}

/// The same, and that nobody got it.
pub fn open_word_of(frame: DrawnFrame) -> &'static str {
    match look_of_frame(frame) {
        FrameLook::Request => "request open",
        FrameLook::Reply => "reply open",
        FrameLook::Probe => "probe open",
        FrameLook::Withdraw => "withdraw open",
    }
}
