// The worked cases of the arithmetic and of the mode, in one statement, and tests at the mode's limits.
#![tactic(auto)]

ghost use Rattle.cases.specs.Cases.{WorkedCases};

// The worked cases hold: those of the arithmetic, and sealings with the glass cipher in the short and in the wide kind.
pub fn worked_cases()
    ensures { WorkedCases }
{}

#[cfg(test)]
mod tests {
    use cipher::Glass;
    use fault::SealFault;
    use poly::Short;
    use sealing::{seal, unseal};

    // 64 blocks are sealed and come back; 65 are refused with 12.
    #[test]
    fn most_blocks(rt: HostRuntime) {
        let glass: Glass<Short> = Glass::new();
        let tweak = [0, 0, 0, 0, 0, 0, 0, 7];
        let mut text = [9u8; 512];
        assert!(rt; seal(&glass, &tweak, &mut text).is_ok());
        assert!(rt; text[511] != 9);
        assert!(rt; unseal(&glass, &tweak, &mut text).is_ok());
        assert!(rt; text[511] == 9);
        let mut long = [9u8; 520];
        assert_eq!(rt;
            seal(&glass, &tweak, &mut long),
            Err(SealFault::TooManyBlocks)
        );
        assert_eq!(rt; SealFault::TooManyBlocks.number(), 12);
    }
}
