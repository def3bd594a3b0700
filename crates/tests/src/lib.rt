// Tests of public functions that no other crate here calls.
#![tactic(auto)]

#[cfg(test)]
mod known {
    use scheme::index::SIZE;
    use std::test::Fail;
    use table::Cause;
    use table::known::Known;

    // Table E of the rules.
    const E: [u16; 48] = [
        1, 2, 2, 2, 5, 2, 0, 13, 15, 23, 25, 40, 48, 0, 1, 0, 0, 0, 0, 1, 3, 0, 0, 0, 1, 2, 1, 1,
        1, 0, 1, 0, 0, 0, 1, 1, 1, 0, 0, 0, 1, 0, 1, 2, 2, 0, 2, 4,
    ];

    // The words of an index, lent as a list: branch 1 is the choice of node 3; it and name 2 are in thread 1.
    #[test]
    fn of_table_e(rt: HostRuntime) -> Result<(), Fail> {
        let mut index = [7u32; SIZE];
        let known = Known::of(&E, &mut index)?;
        assert_eq!(rt; known.home(1), 3);
        assert_eq!(rt; known.node_thread(3), 1);
        assert_eq!(rt; known.branch_thread(1), 1);
        assert_eq!(rt; known.name_thread(2), 1);
        Ok(())
    }

    // Twelve words are refused by 1, and E with name 2 sent on branch 0 by 8.
    #[test]
    fn of_refused(rt: HostRuntime) {
        let mut index = [7u32; SIZE];
        assert_eq!(rt; Known::of(&E[..12], &mut index).err(), Some(Cause::Short));
        let mut sent = E;
        sent[42] = 2;
        assert_eq!(rt; Known::of(&sent, &mut index).err(), Some(Cause::Scope));
    }
}
