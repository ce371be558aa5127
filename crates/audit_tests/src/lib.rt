#![tactic(auto)]

// Lines of an audit, one by one: what they are, and what is refused and leaves the buffer as it was.
#[cfg(test)]
mod tests {
    use account_bank::AccountBank;
    use audit::write_line;
    use books::{FreeBook, StrictBook};
    use layers::Beside;
    use note_bank::NoteBank;
    use session::answer_lines;
    use std::alloc::{AllocError, Global};
    use std::process::Abort;
    use std::test::Fail;
    use world::World;

    type Two = World<Beside<AccountBank, NoteBank>, FreeBook, StrictBook>;

    fn two_chains(heap: Global) -> Result<Two, AllocError> {
        let accounts = AccountBank::new(vec![in heap; 0u64; 768]?);
        let notes = NoteBank::new(vec![in heap; None; 1024]?);
        Ok(World::new(
            Beside::new(accounts, notes),
            FreeBook::new(),
            StrictBook::new(),
        ))
    }

    // 100 gold, of which 40 are sent to the other chain and not received yet.
    fn gold_on_its_way(heap: Global) -> Result<Two, Fail> {
        let mut world = two_chains(heap)?;
        let mut out = Vec::new(heap);
        match answer_lines(
            &mut world,
            b"open 0 1 free\nissue 0 2 gold 100\nsend 0 0 2 5 gold 40 0\n",
            &mut out,
        ) {
            Ok(()) => Ok(world),
            Err(_) => Err(Fail::new("an answer was not written")),
        }
    }

    // Line n over a buffer of 300 bytes, all 46, holds `line` and behind it what it held.
    fn line_is(rt: &impl Abort, world: &Two, n: usize, line: &[u8]) {
        let mut buffer = [46; 300];
        assert_eq!(rt; write_line(world, n, &mut buffer).ok(), Some(line.len()));
        assert!(rt; buffer.starts_with(line));
        assert!(rt; buffer.iter().skip(line.len()).all(|byte| *byte == 46));
    }

    fn refused(
        rt: &impl Abort,
        world: &Two,
        n: usize,
        buffer: &mut [u8],
        number: u8,
    ) -> Result<(), Fail> {
        match write_line(world, n, buffer) {
            Ok(_) => return Err(Fail::new("a line was written")),
            Err(fault) => assert!(rt; fault.number() == number),
        }
        assert!(rt; buffer.iter().all(|byte| *byte == 46));
        Ok(())
    }

    #[test]
    fn each_line_by_its_number(rt: HostRuntime) -> Result<(), Fail> {
        let world = gold_on_its_way(rt.alloc())?;
        line_is(&rt, &world, 0, b"audit 1 1 1\n");
        line_is(&rt, &world, 1, b"token 0 gold 100 60 40\n");
        line_is(&rt, &world, 2, b"escrow 0 0 gold 40 0 40\n");
        Ok(())
    }

    #[test]
    fn no_such_line(rt: HostRuntime) -> Result<(), Fail> {
        let world = gold_on_its_way(rt.alloc())?;
        let mut buffer = [46; 256];
        refused(&rt, &world, 3, &mut buffer, 36)?;
        refused(&rt, &world, usize::MAX, &mut buffer, 36)
    }

    #[test]
    fn too_little_room(rt: HostRuntime) -> Result<(), Fail> {
        let world = gold_on_its_way(rt.alloc())?;
        let mut short = [46; 255];
        refused(&rt, &world, 0, &mut short, 35)?;
        refused(&rt, &world, 3, &mut short, 35)?;
        refused(&rt, &world, 0, &mut [], 35)
    }

    #[test]
    fn an_empty_world_has_one_line(rt: HostRuntime) -> Result<(), Fail> {
        let world = two_chains(rt.alloc())?;
        line_is(&rt, &world, 0, b"audit 0 0 0\n");
        let mut buffer = [46; 256];
        refused(&rt, &world, 1, &mut buffer, 36)
    }
}
