#![tactic(auto)]

// The bounds of texts, on both sides of each.
#[cfg(test)]
mod tests {
    use commands::{Reply, is_too_long, parse_line, write_answer};
    use denom::{Denomination, Symbol};
    use figures::read_number;

    fn is_symbol(text: &[u8]) -> bool {
        Symbol::try_from(text).is_ok()
    }

    fn is_denomination(text: &[u8]) -> bool {
        Denomination::try_from(text).is_ok()
    }

    #[test]
    fn a_script_has_at_most_65536_bytes(rt: HostRuntime) {
        let most = [b'#'; 65536];
        let over = [b'#'; 65537];
        assert!(rt; !is_too_long(&[]));
        assert!(rt; !is_too_long(&most));
        assert!(rt; is_too_long(&over));
    }

    #[test]
    fn a_line_has_at_most_255_bytes(rt: HostRuntime) {
        let most = [b'#'; 255];
        let over = [b'#'; 256];
        assert!(rt; parse_line(&most).is_ok());
        assert!(rt; parse_line(&over).is_err());
    }

    #[test]
    fn numbers_have_64_bits_and_no_leading_zeros(rt: HostRuntime) {
        assert_eq!(rt; read_number(b"0"), Some(0));
        assert_eq!(rt; read_number(b"18446744073709551615"), Some(u64::MAX));
        assert_eq!(rt; read_number(b"18446744073709551616"), None);
        assert_eq!(rt; read_number(b"99999999999999999999"), None);
        assert_eq!(rt; read_number(b"00"), None);
        assert_eq!(rt; read_number(b"01"), None);
        assert_eq!(rt; read_number(b"+1"), None);
        assert_eq!(rt; read_number(b"1 "), None);
        assert_eq!(rt; read_number(b""), None);
    }

    #[test]
    fn symbols_have_at_most_16_letters(rt: HostRuntime) {
        assert!(rt; is_symbol(b"a"));
        assert!(rt; is_symbol(b"abcdefghijklmnop"));
        assert!(rt; !is_symbol(b"abcdefghijklmnopq"));
        assert!(rt; is_symbol(b"a1z9"));
        assert!(rt; !is_symbol(b"1a"));
        assert!(rt; !is_symbol(b"aB"));
        assert!(rt; !is_symbol(b"a/b"));
        assert!(rt; !is_symbol(b""));
    }

    #[test]
    fn denominations_have_at_most_6_hops(rt: HostRuntime) {
        assert!(rt; is_denomination(b"transfer"));
        assert!(rt; is_denomination(b"transfer/channel-7/gold"));
        assert!(rt; !is_denomination(b"transfer/channel-8/gold"));
        assert!(rt; !is_denomination(b"transfer/channel-00/gold"));
        assert!(rt; !is_denomination(b"transfer/channel-0/"));
        assert!(rt; !is_denomination(b"transfer/channel-0gold"));
        let six =
            b"transfer/channel-0/transfer/channel-1/transfer/channel-2/transfer/channel-3/transfer/channel-4/transfer/channel-5/g";
        let seven =
            b"transfer/channel-0/transfer/channel-1/transfer/channel-2/transfer/channel-3/transfer/channel-4/transfer/channel-5/transfer/channel-6/g";
        assert!(rt; is_denomination(six));
        assert!(rt; !is_denomination(seven));
    }

    #[test]
    fn an_answer_keeps_what_stands_behind_it(rt: HostRuntime) {
        let mut small = [7; 63];
        assert_eq!(rt; write_answer(&mut small, 1, Ok(Reply::Done)), None);
        assert!(rt; small == [7; 63]);
        let mut room = [7; 64];
        assert_eq!(rt;
            write_answer(&mut room, 12, Ok(Reply::Number(345))),
            Some(10)
        );
        assert!(rt; room.starts_with(b"12 ok 345\n"));
        assert!(rt; room[10..] == [7; 54]);
    }
}
