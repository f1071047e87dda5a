//! Packets: messages as bytes.
ghost use Rattle.std.specs.Prelude.{◌≡◌, ◌++◌, Ok, IfOk};
ghost use Rattle.gr_format.specs.Formats.{Spells, opened};
ghost use Rattle.gr_msg.specs.declared.opened.Opened.{Opened as Contents};
ghost use Rattle.gr_msg.specs.Messages as format;
ghost use Rattle.gr_msg.specs.Ranges.{IsPacket};
ghost use Rattle.gr_msg.specs.Decoding.{Decodes};
ghost use Rattle.gr_msg.specs.RefusalWords.{IsWithin, refusal_of};

use crate::error::DecodeError;
use crate::kinds::packet;
use crate::message::{Messages, Msg};
use crate::opened::Opened;
use crate::writing::put_messages;
use gr_format::{Field, FormatError, put};
use std::alloc::{AllocError, Global};
use std::marker::Model;

/// A clock and messages as bytes.
#[derive(Drop)]
pub struct Packet {
    clock: u64,
    bytes: Vec<u8>,
}

impl Model for Packet {
    ghost use Rattle.gr_msg.specs.declared.opened.Opened.{Opened};

    ghost Value = { Opened };

    ghost use Rattle.gr_msg.specs.PacketView.{Holds, contents};

    ghost view = { λ a. contents a.bytes.items };

    ghost invariant = { λ a. Holds a.clock a.bytes.items };
}

impl Packet {
    /// The clock.
    pub fn clock(&self) -> u64
        ensures { result ≡ self.now.clock }
    {
        self.clock
    }

    /// The bytes that spell the clock and the messages.
    pub fn bytes(&self) -> &[u8]
        ensures { Spells format.packet result.now self.now }
    {
        self.bytes.as_slice()
    }

    /// An equal packet.
    pub fn copy(&self) -> Result<Packet, AllocError>
        ensures { IfOk result (λ copied. copied ≡ self.now) }
    {
        let bytes = Vec::from_slice(*self.bytes.allocator(), self.bytes.as_slice())?;
        Ok(Packet {
            clock: self.clock,
            bytes,
        })
    }
}

/// The packet of the messages of two slices, one slice after the other. The clock is at most 2^40, there are 1 to
/// 256 messages, and each of their numbers is in its range.
pub fn encode_slices(
    alloc: Global,
    clock: u64,
    front: &[Msg],
    back: &[Msg],
) -> Result<Packet, AllocError>
    requires { IsPacket (record { clock = clock; messages = front.now ++ back.now }) }
    ensures { IfOk result (λ packet.
        packet ≡ record { clock = clock; messages = front.now ++ back.now }) }
{
    let count = (front.len() + back.len()) as u64;
    let mut bytes = Vec::new(alloc);
    put(&mut bytes, &[Field::Word(clock), Field::Pair(count)])?;
    put_messages(&mut bytes, front)?;
    put_messages(&mut bytes, back)?;
    Ok(Packet { clock, bytes })
}

/// The packet of these messages. The clock is at most 2^40, there are 1 to 256 messages, and each of their numbers
/// is in its range.
pub fn encode(alloc: Global, clock: u64, messages: &Messages) -> Result<Packet, AllocError>
    requires { IsPacket (record { clock = clock; messages = messages.now }) }
    ensures { IfOk result (λ packet. packet ≡ record { clock = clock; messages = messages.now }) }
{
    encode_slices(alloc, clock, messages.as_slice(), &[])
}

/// Why so many bytes don't open, by why they weren't read.
fn refusal(length: usize, stopped: FormatError) -> DecodeError
    requires { IsWithin length stopped }
    ensures { result ≡ refusal_of length stopped }
{
    match stopped {
        FormatError::Fault { left } => DecodeError::NotAPacket {
            at: (length - left) as u64,
        },
        FormatError::OutOfMemory => DecodeError::OutOfMemory,
    }
}

/// What the bytes say, or where they are no packet.
fn open(alloc: Global, bytes: &[u8]) -> Result<Opened, DecodeError>
    ensures { Decodes (opened format.packet bytes.now) result }
{
    let found = packet(alloc, bytes);
    match found {
        Ok((opened, rest)) => {
            let left = rest.len();
            if left == 0 {
                Ok(opened)
            } else {
                let at = (bytes.len() - left) as u64;
                Err(DecodeError::NotAPacket { at })
            }
        }
        Err(stopped) => Err(refusal(bytes.len(), stopped)),
    }
}

/// What the bytes say, where they are one whole packet; else, unless memory runs out, the place of the first
/// fault.
pub fn decode(alloc: Global, bytes: &[u8]) -> Result<Opened, DecodeError>
    ensures exact { Decodes (opened format.packet bytes.now) result }
    ensures spelled { IfOk result (λ contents. Spells format.packet bytes.now contents) }
    ensures whole { (contents : Contents) → Spells format.packet bytes.now contents
        → Decodes (Ok contents) result }
{
    open(alloc, bytes)
}
