//! The lines of a run: each event with what it left.
use crate::event_text::event_text;
use crate::mark_text::mark_text;
use crate::message_text::message_text;
use gr_accept::Accepted;
use gr_machine::{CoreEnd, Event, Packets};
use gr_msg::decode;
use std::alloc::{AllocError, Global};

/// An event that a core has made, with its clock then.
#[derive(Clone, Copy)]
pub struct Step {
    pub core: usize,
    pub clock: u64,
    pub event: Event,
}

/// The slots that the new tasks of the event took.
fn add_slots(
    alloc: Global,
    text: &mut String,
    end: &CoreEnd,
    clock: u64,
) -> Result<(), AllocError> {
    for entry in end.journal.as_slice() {
        if entry.clock == clock {
            for slot in entry.slots.as_slice() {
                text.push_str(format!(in alloc; " | slot {slot}")?.as_str())?;
            }
        }
    }
    Ok(())
}

/// The messages that the event shipped.
fn add_messages(
    alloc: Global,
    text: &mut String,
    end: &CoreEnd,
    dest: u64,
    clock: u64,
) -> Result<(), AllocError> {
    let Some(packets) = end.sent.as_slice().get(dest as usize) else {
        return Ok(());
    };
    for packet in packets.as_slice() {
        if packet.clock() == clock {
            if let Ok(opened) = decode(alloc, packet.bytes()) {
                for message in opened.messages.as_slice() {
                    text.push_str(" | ")?;
                    text.push_str(message_text(alloc, message)?.as_str())?;
                }
            }
        }
    }
    Ok(())
}

/// The marks that the event left.
fn add_marks(
    alloc: Global,
    text: &mut String,
    program: &Accepted,
    end: &CoreEnd,
    clock: u64,
) -> Result<(), AllocError> {
    for mark in end.marks.as_slice() {
        if mark.clock == clock {
            text.push_str(" | ")?;
            text.push_str(mark_text(alloc, program, &mark.mark)?.as_str())?;
        }
    }
    Ok(())
}

/// The line of an event of the core with this end.
pub fn line(
    alloc: Global,
    program: &Accepted,
    end: &CoreEnd,
    step: Step,
) -> Result<String, AllocError> {
    let event = event_text(alloc, step.event)?;
    let mut text = format!(in alloc; "{} {} {}", step.core, step.clock, event.as_str())?;
    add_slots(alloc, &mut text, end, step.clock)?;
    if let Event::Ship { dest } = step.event {
        add_messages(alloc, &mut text, end, dest, step.clock)?;
    }
    add_marks(alloc, &mut text, program, end, step.clock)?;
    Ok(text)
}

/// Whether what a core took from another is the front of what that shipped, and so many packets were left.
fn is_carried(from: &CoreEnd, to: &CoreEnd) -> bool {
    let sent = from.sent.as_slice().get(to.core as usize);
    let received = to.received.as_slice().get(from.core as usize);
    let left = to.left.as_slice().get(from.core as usize);
    match (sent, received, left) {
        (Some(sent), Some(received), Some(left)) => {
            sent.len() as u64 == (received.len() as u64).saturating_add(*left)
                && sent
                    .as_slice()
                    .iter()
                    .zip(received.as_slice())
                    .all(|(one, other)| one.bytes() == other.bytes())
        }
        _ => false,
    }
}

/// Whether that is so of each two cores.
pub fn are_carried(ends: &[CoreEnd]) -> bool {
    ends.iter()
        .all(|from| ends.iter().all(|to| is_carried(from, to)))
}

/// A line for each core from which packets to this one are under way.
pub fn add_flights(alloc: Global, told: &mut Vec<String>, end: &CoreEnd) -> Result<(), AllocError> {
    let mut from = 0u64;
    for count in end.left.as_slice() {
        if *count > 0 {
            let to = end.core;
            told.push(format!(in alloc; "in flight from {from} to {to}: packets {count}")?)?;
        }
        from = from.saturating_add(1);
    }
    Ok(())
}

/// What a core has done, in numbers.
pub fn end_line(alloc: Global, end: &CoreEnd, status: &str) -> Result<String, AllocError> {
    let done = end.counts;
    format!(in alloc;
        "core {}: clock {} calls {} messages {} packets {} short {} batches {} asks {} gives {} {}",
        end.core,
        end.clock,
        done.calls,
        done.messages,
        done.packets,
        done.short,
        done.batches,
        done.asks,
        done.gives,
        status
    )
}

/// Adds the first word of a text, if it isn't there yet.
fn add_kind(alloc: Global, kinds: &mut Vec<String>, text: &str) -> Result<(), AllocError> {
    let kind = text.split_whitespace().next().unwrap_or("");
    if kinds.iter().any(|other| other.as_str() == kind) {
        return Ok(());
    }
    kinds.push(String::from_str(alloc, kind)?)?;
    Ok(())
}

/// The kinds of the messages that a core has shipped to another one.
fn add_kinds(alloc: Global, kinds: &mut Vec<String>, packets: &Packets) -> Result<(), AllocError> {
    for packet in packets.as_slice() {
        if let Ok(opened) = decode(alloc, packet.bytes()) {
            for message in opened.messages.as_slice() {
                let text = message_text(alloc, message)?;
                add_kind(alloc, kinds, text.as_str())?;
            }
        }
    }
    Ok(())
}

/// How many kinds of messages were shipped.
pub fn kinds_line(alloc: Global, ends: &[CoreEnd]) -> Result<String, AllocError> {
    let mut kinds = Vec::new(alloc);
    for end in ends {
        for packets in end.sent.as_slice() {
            add_kinds(alloc, &mut kinds, packets)?;
        }
    }
    format!(in alloc; "kinds of messages: {}", kinds.len())
}
