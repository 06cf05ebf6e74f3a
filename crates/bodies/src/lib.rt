// The kinds of body: readings, doors and set points.
#![tactic(auto)]

pub mod kind;
pub mod measure;
pub mod values;

// Worked bodies.
#[cfg(test)]
mod tests {
    use crate::kind::{Kind, decode, encode};
    use crate::values::{Door, Reading, SetPoint, Temperature};
    use frames::refusal::Refusal;
    use frames::types::Body;
    use std::test::Fail;

    #[test]
    fn a_probe_reads_cold(rt: HostRuntime) -> Result<(), Fail> {
        let reading = Reading {
            probe: 4,
            temperature: Temperature { hundredths: -1850 },
        };
        let body = encode(&reading)?;
        assert!(rt; body.as_slice() == [0x01, 0x04, 0xF8, 0xC6].as_slice());
        assert_eq!(rt; decode::<Reading>(&body)?, reading);
        Ok(())
    }

    #[test]
    fn any_byte_but_nought_is_an_open_door(rt: HostRuntime) -> Result<(), Fail> {
        assert_eq!(rt;
            Door::read(&[0x02, 0x05, 0x07])?,
            Door {
                compartment: 5,
                open: true,
            }
        );
        let body = encode(&Door {
            compartment: 5,
            open: true,
        })?;
        assert!(rt; body.as_slice() == [0x02, 0x05, 0x01].as_slice());
        Ok(())
    }

    #[test]
    fn values_and_bodies_out_of_range(rt: HostRuntime) -> Result<(), Fail> {
        let warm = SetPoint {
            compartment: 2,
            temperature: Temperature { hundredths: 5001 },
        };
        assert_eq!(rt;
            encode(&warm).err().ok_or("written")?,
            Refusal::ValueOutOfRange
        );
        let reading = Body::try_from([0x01, 0x04, 0xF8, 0xC6].as_slice())?;
        assert_eq!(rt;
            decode::<SetPoint>(&reading).err(),
            Some(Refusal::NotThisKind)
        );
        assert_eq!(rt; decode::<Door>(&reading).err(), Some(Refusal::NotThisKind));
        Ok(())
    }
}
