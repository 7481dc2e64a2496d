//! The other end of the stream.
use crate::celsius::Celsius;
use crate::level::Level;
use crate::message::Message;
use crate::stream::MESSAGES;
use bitcode::Error;
use bitcode::sealed::seal_into;
use std::alloc::Global;

/// Messages of a device, sealed one behind the other.
pub fn frames(alloc: Global) -> Result<Vec<u8>, Error> {
    let messages = [
        Message::Hello {
            name: "boiler",
            version: 3,
        },
        Message::Measured {
            sensor: 17,
            value: Celsius { tenths: -40 },
        },
        Message::Log(Level::Warning, "low pressure"),
        Message::Measured {
            sensor: 18,
            value: Celsius { tenths: 215 },
        },
        Message::Bye,
    ];
    let mut out = Vec::new(alloc);
    for message in &messages {
        seal_into(alloc, MESSAGES, message, &mut out)?;
    }
    Ok(out)
}
