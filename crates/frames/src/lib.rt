// Levels, names, frames and their bytes, and the refusals of the whole repository.
#![tactic(auto)]

pub mod body;
pub mod frame;
pub mod level;
pub mod names;
pub mod read;
pub mod refusal;
pub mod show;
pub mod table;
pub mod types;
pub mod write;

// Worked frames and levels.
#[cfg(test)]
mod tests {
    use crate::read::read;
    use crate::refusal::Refusal;
    use crate::types::{Ack, Body, Frame, Level, Message, Nack, Name, Names, RingSize, To};
    use crate::write::pack;
    use std::process::Abort;
    use std::test::Fail;

    // The message of head 0 whose body is the byte 1, at level total.
    fn first_name(size: RingSize) -> Result<Name, Refusal> {
        Name::new(size, 0, 1, 0)
    }

    fn writes(rt: &impl Abort, size: RingSize, frame: Frame, bytes: &[u8]) -> Result<(), Fail> {
        let packet = pack(size, frame)?;
        assert!(rt; packet.as_slice() == bytes);
        let again = pack(size, read(size, bytes)?)?;
        assert!(rt; again.as_slice() == bytes);
        Ok(())
    }

    #[test]
    fn a_message_is_sent(rt: HostRuntime) -> Result<(), Fail> {
        let size = RingSize::try_from(3)?;
        let frame = Frame::Data(Message {
            name: first_name(size)?,
            body: Body::try_from([1].as_slice())?,
        });
        writes(
            &rt,
            size,
            frame,
            &[0x01, 0x00, 0x00, 0x00, 0x00, 0x01, 0x00, 0x01, 0x01],
        )
    }

    #[test]
    fn a_message_is_ordered(rt: HostRuntime) -> Result<(), Fail> {
        let size = RingSize::try_from(3)?;
        let mut names = Names::none();
        assert!(rt; names.push(first_name(size)?));
        let bytes = [
            0x02, 0x00, 0x00, 0x00, 0x01, 0x00, 0x01, 0x01, 0x00, 0x00, 0x00, 0x00, 0x01, 0x00,
        ];
        writes(
            &rt,
            size,
            Frame::Ack(Ack {
                stamp: 1,
                issuer: 0,
                names,
            }),
            &bytes,
        )
    }

    #[test]
    fn a_slot_is_asked_for(rt: HostRuntime) -> Result<(), Fail> {
        let size = RingSize::try_from(3)?;
        writes(
            &rt,
            size,
            Frame::Nack(Nack {
                from: 2,
                to: To::Head(0),
                stamp: 2,
            }),
            &[0x03, 0x02, 0x00, 0x00, 0x00, 0x00, 0x02],
        )
    }

    #[test]
    fn next_follows_the_issuer(rt: HostRuntime) -> Result<(), Fail> {
        let bytes = [0x02, 0x00, 0x00, 0x00, 0x01, 0x00, 0x02, 0x00];
        assert_eq!(rt;
            read(RingSize::try_from(3)?, &bytes).err(),
            Some(Refusal::FieldOutOfRange)
        );
        Ok(())
    }

    #[test]
    fn levels_suit_the_ring(rt: HostRuntime) -> Result<(), Fail> {
        let size = RingSize::try_from(3)?;
        assert_eq!(rt; Level::new(2, size)?.needs(size), 2);
        assert_eq!(rt; Level::new(3, size).err(), Some(Refusal::BadLevel));
        assert_eq!(rt; "Safe".parse::<Level>().err(), Some(Refusal::BadLevel));
        for (heads, others) in [(2, 1), (3, 1), (4, 2), (8, 4)] {
            assert_eq!(rt;
                "majority"
                    .parse::<Level>()?
                    .needs(RingSize::try_from(heads)?),
                others
            );
        }
        Ok(())
    }
}
