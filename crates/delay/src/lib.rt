// The delay memory of interleavers: branches that delay by different lengths, and a plain delay, for every kind of element.
#![tactic(auto)]

ghost use Rattle.delay.specs.Laws.{ClearAt, PlainClearAt, LeavesAt, ReturnsAt, PlainSumAt, TelevisionPlaceAt, TelevisionWayAt, TelevisionSizes, RowDistance};

pub mod branches;
pub mod memory;
pub mod plain;
mod ring;

pub use branches::Direction;
pub use memory::Delay;
pub use plain::PlainDelay;

// Laws at every kind of element: memories that are cleared have taken nothing in.
pub fn clear_stands<T: Copy>(z: T)
    ensures branches { ClearAt T z }
    ensures plain { PlainClearAt T z }
{}

// Laws at every kind of element: where an element leaves, and that the two directions together are a plain delay.
pub fn returns_stand<T: Copy>(z: T)
    ensures leaves { LeavesAt T z }
    ensures returns { ReturnsAt T z }
    ensures sums { PlainSumAt T z }
{}

// Laws at every kind of element for television's 52 branches of step 4: what each interleaved place holds, and the whole way.
pub fn television_stands<T: Copy>(z: T)
    ensures places { TelevisionPlaceAt T z }
    ensures way { TelevisionWayAt T z }
    ensures sizes { TelevisionSizes }
{}

// Laws of distance: television's rows of 207 bytes in 52 branches, and rows of 204 in 12 branches of step 17.
pub fn distance_stands()
    ensures television { RowDistance 207 52 4 }
    ensures twelve { RowDistance 204 12 17 }
{}

#[cfg(test)]
mod tests {
    use super::*;
    use refusal::Refusal;
    use std::test::Fail;

    // The output number as which input number `i` leaves television's interleaver, if it is among the first 20,000.
    fn leaves(cells: &mut [bool], i: usize) -> Result<Option<usize>, Refusal> {
        let mut memory = Delay::new(52, 4, Direction::Interleave)?;
        for n in 0..20000 {
            if memory.push(cells, n == i)? {
                return Ok(Some(n));
            }
        }
        Ok(None)
    }

    #[test]
    fn television_interleaves(rt: HostRuntime) -> Result<(), Fail> {
        assert_eq!(rt; leaves(&mut [false; 5304], 1)?, Some(209));
        assert_eq!(rt; leaves(&mut [false; 5304], 51)?, Some(10659));
        assert_eq!(rt; leaves(&mut [false; 5304], 52)?, Some(52));
        assert_eq!(rt; leaves(&mut [false; 5304], 207)?, Some(10815));
        Ok(())
    }

    #[test]
    fn other_lengths_are_refused(rt: HostRuntime) -> Result<(), Fail> {
        let mut memory = Delay::new(52, 4, Direction::Interleave)?;
        assert_eq!(rt; memory.len(), 5304);
        assert_eq!(rt; memory.push(&mut [0; 5303], 7), Err(Refusal::WrongLength));
        assert!(rt; Delay::new(256, 4, Direction::Interleave).is_err());
        assert!(rt; Delay::new(52, 0, Direction::Interleave).is_err());
        Ok(())
    }
}
