// What is said of files of postings, good and bad, and how postings are written.
#![tactic(auto)]

#[cfg(test)]
mod tests {
    use posting::{Listing, MemberEnergy, Opening, Posting, Record, read_record, write_record};
    use pricing::{Activation, Activations, SystemFigures};
    use refusal::{Layer, Reason, Refusal};
    use std::process::Abort;
    use std::test::Fail;

    // Each case is a name, a file, and its listing.
    #[test]
    fn files_are_listed(rt: HostRuntime) -> Result<(), Fail> {
        let cases: [(&str, &[u8], &str); 27] = [
            (
                "no version",
                b"",
                "refused 17: version absent or unknown (file, byte 0)\n",
            ),
            (
                "another version",
                b"\x02\x00\x0f\x00\x04\x01\x00\x00\x00\x00\x00\x00\x00\x06\x00\x00\x17\x70",
                "refused 17: version absent or unknown (file, byte 0)\n",
            ),
            ("a version alone", b"\x01", ""),
            (
                "an opening",
                b"\x01\x00\x0f\x00\x04\x01\x00\x00\x00\x00\x00\x00\x00\x06\x00\x00\x17\x70",
                "at 1 opening members 4 days 1 consumers 6 internal price 6000\n",
            ),
            (
                "half a length",
                b"\x01\x00",
                "refused 18: cut short (file, byte 1)\n",
            ),
            (
                "no body",
                b"\x01\x00\x01",
                "refused 18: cut short (file, byte 1)\n",
            ),
            (
                "half a body",
                b"\x01\x00\x0f\x00\x04\x01\x00\x00\x00\x00\x00\x00\x00\x06\x00\x00\x17",
                "refused 18: cut short (file, byte 1)\n",
            ),
            (
                "cut short before its kind is judged",
                b"\x01\x00\x03\x09\x00",
                "refused 18: cut short (file, byte 1)\n",
            ),
            (
                "an empty body",
                b"\x01\x00\x00",
                "refused 19: bad record (file, byte 1)\n",
            ),
            (
                "unknown kind",
                b"\x01\x00\x0f\x00\x04\x01\x00\x00\x00\x00\x00\x00\x00\x06\x00\x00\x17\x70\x00\x03\x07\x00\x00",
                "at 1 opening members 4 days 1 consumers 6 internal price 6000\nrefused 19: bad record (file, byte 18)\n",
            ),
            (
                "first record no opening",
                b"\x01\x00\x03\x05\x00\x00\x00\x0f\x00\x04\x01\x00\x00\x00\x00\x00\x00\x00\x06\x00\x00\x17\x70",
                "refused 19: bad record (file, byte 1)\n",
            ),
            (
                "later opening",
                b"\x01\x00\x0f\x00\x04\x01\x00\x00\x00\x00\x00\x00\x00\x06\x00\x00\x17\x70\x00\x0f\x00\x04\x01\x00\x00\x00\x00\x00\x00\x00\x06\x00\x00\x17\x70",
                "at 1 opening members 4 days 1 consumers 6 internal price 6000\nrefused 19: bad record (file, byte 18)\n",
            ),
            (
                "nothing behind a bad record",
                b"\x01\x00\x0f\x00\x04\x01\x00\x00\x00\x00\x00\x00\x00\x06\x00\x00\x17\x70\x00\x00\x00\x03\x05\x00\x00",
                "at 1 opening members 4 days 1 consumers 6 internal price 6000\nrefused 19: bad record (file, byte 18)\n",
            ),
            (
                "opening too short",
                b"\x01\x00\x0e\x00\x00\x00\x00\x00\x00\x00\x00\x00\x00\x00\x00\x00\x00",
                "refused 19: bad record (file, byte 1)\n",
            ),
            (
                "opening too long",
                b"\x01\x00\x10\x00\x00\x00\x00\x00\x00\x00\x00\x00\x00\x00\x00\x00\x00\x00\x00",
                "refused 19: bad record (file, byte 1)\n",
            ),
            (
                "energy too short",
                b"\x01\x00\x0f\x00\x04\x01\x00\x00\x00\x00\x00\x00\x00\x06\x00\x00\x17\x70\x00\x07\x01\x00\x00\x00\x00\x00\x00",
                "at 1 opening members 4 days 1 consumers 6 internal price 6000\nrefused 19: bad record (file, byte 18)\n",
            ),
            (
                "energy too long",
                b"\x01\x00\x0f\x00\x04\x01\x00\x00\x00\x00\x00\x00\x00\x06\x00\x00\x17\x70\x00\x09\x02\x00\x00\x00\x00\x00\x00\x00\x00",
                "at 1 opening members 4 days 1 consumers 6 internal price 6000\nrefused 19: bad record (file, byte 18)\n",
            ),
            (
                "price too short",
                b"\x01\x00\x0f\x00\x04\x01\x00\x00\x00\x00\x00\x00\x00\x06\x00\x00\x17\x70\x00\x06\x03\x00\x00\x00\x00\x00",
                "at 1 opening members 4 days 1 consumers 6 internal price 6000\nrefused 19: bad record (file, byte 18)\n",
            ),
            (
                "period too short",
                b"\x01\x00\x0f\x00\x04\x01\x00\x00\x00\x00\x00\x00\x00\x06\x00\x00\x17\x70\x00\x02\x05\x00",
                "at 1 opening members 4 days 1 consumers 6 internal price 6000\nrefused 19: bad record (file, byte 18)\n",
            ),
            (
                "period too long",
                b"\x01\x00\x0f\x00\x04\x01\x00\x00\x00\x00\x00\x00\x00\x06\x00\x00\x17\x70\x00\x04\x06\x00\x00\x00",
                "at 1 opening members 4 days 1 consumers 6 internal price 6000\nrefused 19: bad record (file, byte 18)\n",
            ),
            (
                "figures too short",
                b"\x01\x00\x0f\x00\x04\x01\x00\x00\x00\x00\x00\x00\x00\x06\x00\x00\x17\x70\x00\x43\x04\x00\x00\x00\x00\x00\x00\x00\x00\x00\x00\x00\x00\x00\x00\x00\x00\x00\x00\x00\x00\x00\x00\x00\x00\x00\x00\x00\x00\x00\x00\x00\x00\x00\x00\x00\x00\x00\x00\x00\x00\x00\x00\x00\x00\x00\x00\x00\x00\x00\x00\x00\x00\x00\x00\x00\x00\x00\x00\x00\x00\x00\x00\x00\x00\x00\x00",
                "at 1 opening members 4 days 1 consumers 6 internal price 6000\nrefused 19: bad record (file, byte 18)\n",
            ),
            (
                "figures too long",
                b"\x01\x00\x0f\x00\x04\x01\x00\x00\x00\x00\x00\x00\x00\x06\x00\x00\x17\x70\x00\x45\x04\x00\x00\x00\x00\x00\x00\x00\x00\x00\x00\x00\x00\x00\x00\x00\x00\x00\x00\x00\x00\x00\x00\x00\x00\x00\x00\x00\x00\x00\x00\x00\x00\x00\x00\x00\x00\x00\x00\x00\x00\x00\x00\x00\x00\x00\x00\x00\x00\x00\x00\x00\x00\x00\x00\x00\x00\x00\x00\x00\x00\x00\x00\x00\x00\x00\x00\x00\x00",
                "at 1 opening members 4 days 1 consumers 6 internal price 6000\nrefused 19: bad record (file, byte 18)\n",
            ),
            (
                "flags above 3",
                b"\x01\x00\x0f\x00\x04\x01\x00\x00\x00\x00\x00\x00\x00\x06\x00\x00\x17\x70\x00\x44\x04\x00\x00\x00\x00\x00\x00\x00\x00\x00\x00\x00\x00\x00\x00\x00\x00\x00\x00\x00\x00\x00\x00\x00\x00\x00\x00\x00\x00\x00\x00\x00\x00\x00\x00\x00\x00\x00\x00\x00\x00\x00\x00\x00\x00\x00\x00\x00\x00\x00\x00\x00\x00\x00\x00\x04\x00\x00\x00\x00\x00\x00\x00\x00\x00\x00\x00\x00",
                "at 1 opening members 4 days 1 consumers 6 internal price 6000\nrefused 19: bad record (file, byte 18)\n",
            ),
            (
                "absent downward bid not 0",
                b"\x01\x00\x0f\x00\x04\x01\x00\x00\x00\x00\x00\x00\x00\x06\x00\x00\x17\x70\x00\x44\x04\x00\x00\x00\x00\x00\x00\x00\x00\x00\x00\x00\x00\x00\x00\x00\x00\x00\x00\x00\x00\x00\x00\x00\x00\x00\x00\x00\x00\x00\x00\x00\x00\x00\x00\x00\x00\x00\x00\x00\x00\x00\x00\x00\x00\x00\x00\x00\x00\x00\x00\x00\x00\x00\x00\x02\x00\x00\x00\x01\x00\x00\x00\x01\x00\x00\x00\x00",
                "at 1 opening members 4 days 1 consumers 6 internal price 6000\nrefused 19: bad record (file, byte 18)\n",
            ),
            (
                "absent upward bid not 0",
                b"\x01\x00\x0f\x00\x04\x01\x00\x00\x00\x00\x00\x00\x00\x06\x00\x00\x17\x70\x00\x44\x04\x00\x00\x00\x00\x00\x00\x00\x00\x00\x00\x00\x00\x00\x00\x00\x00\x00\x00\x00\x00\x00\x00\x00\x00\x00\x00\x00\x00\x00\x00\x00\x00\x00\x00\x00\x00\x00\x00\x00\x00\x00\x00\x00\x00\x00\x00\x00\x00\x00\x00\x00\x00\x00\x00\x01\x00\x00\x00\x01\xff\xff\xff\xff\x00\x00\x00\x00",
                "at 1 opening members 4 days 1 consumers 6 internal price 6000\nrefused 19: bad record (file, byte 18)\n",
            ),
            (
                "fields are not judged",
                b"\x01\x00\x0f\x00\xff\xff\xff\xff\xff\xff\xff\xff\xff\xff\xff\xff\xff\xff\x00\x07\x03\xff\xff\x80\x00\x00\x00\x00\x03\x06\xff\xff",
                "at 1 opening members 255 days 255 consumers 18446744073709551615 internal price -1\nat 18 price period 65535 price -2147483648\nat 27 reopen period 65535\n",
            ),
            (
                "each field at its place",
                b"\x01\x00\x0f\x00\x04\x01\x00\x00\x00\x00\x00\x00\x00\x06\x00\x00\x17\x70\x00\x08\x01\x01\x02\x03\x04\x05\x06\x07\x00\x44\x04\x02\x01\xff\xff\xff\xff\x00\x00\x00\x01\xff\xff\xff\xfe\x00\x00\x00\x03\xff\xff\xff\xfc\x00\x00\x00\x05\xff\xff\xff\xfa\x00\x00\x00\x07\x00\x00\x00\x08\x00\x00\x00\x09\x00\x00\x00\x0a\x00\x00\x00\x0b\x00\x00\x00\x0c\x03\xff\xff\xff\xf3\x00\x00\x00\x0e\xff\xff\xff\xf1\x00\x03\x05\x01\x00",
                "at 1 opening members 4 days 1 consumers 6 internal price 6000\nat 18 schedule member 1 period 515 kwh 67438087\nat 28 figures period 513 imbalance -1 downward 1 at -2 and 3 at -4 and 5 at -6 upward 7 at 8 and 9 at 10 and 11 at 12 downward bid -13 upward bid 14 index -15\nat 98 settle period 256\n",
            ),
        ];
        for (name, file, text) in &cases {
            let listing = Listing(*file);
            assert_eq!(rt;
                format!(in rt.alloc(); "{listing}")?.as_str(),
                *text,
                "{}",
                name
            );
        }
        Ok(())
    }

    const NONE: Activation = Activation { kwh: 0, price: 0 };

    const FIGURES: Posting = Posting::Figures {
        period: 1,
        figures: SystemFigures {
            imbalance_kwh: 80_000,
            downward: Activations {
                automatic: Activation {
                    kwh: 60_000,
                    price: 4_000,
                },
                manual: Activation {
                    kwh: 20_000,
                    price: -2_000,
                },
                replacement: NONE,
            },
            upward: Activations {
                automatic: NONE,
                manual: NONE,
                replacement: NONE,
            },
            downward_bid: None,
            upward_bid: Some(-7),
            index: 9_000,
        },
    };

    // The record is written, nothing behind it is, and it reads back; a buffer that is one byte too short is left as it was.
    fn check_record(rt: &impl Abort, posting: Posting, bytes: &[u8]) {
        let size = bytes.len();
        assert!(rt; size <= 70);
        let mut buffer = [0xee; 72];
        assert_eq!(rt; write_record(&posting, &mut buffer), Ok(size));
        assert_eq!(rt; &buffer[0..size], bytes);
        assert_eq!(rt; &buffer[size..72], &[0xee; 72][size..72]);
        assert_eq!(rt; read_record(&buffer), Ok(Record { posting, size }));
        let mut short = [0xee; 72];
        let refusal = Refusal::naming_nobody(Reason::OutputTooShort, Layer::File);
        assert!(rt; size > 0);
        assert_eq!(rt;
            write_record(&posting, &mut short[0..size - 1]),
            Err(refusal)
        );
        assert_eq!(rt; &short[0..72], &[0xee; 72][0..72]);
    }

    #[test]
    fn postings_are_written(rt: HostRuntime) {
        let cases: [(Posting, &[u8]); 7] = [
            (
                Posting::Opening(Opening {
                    members: 4,
                    days: 1,
                    consumers: 6,
                    internal_price: -6000,
                }),
                b"\x00\x0f\x00\x04\x01\x00\x00\x00\x00\x00\x00\x00\x06\xff\xff\xe8\x90",
            ),
            (
                Posting::Schedule(MemberEnergy {
                    member: 3,
                    period: 258,
                    kwh: 10_000,
                }),
                b"\x00\x08\x01\x03\x01\x02\x00\x00\x27\x10",
            ),
            (
                Posting::Reading(MemberEnergy {
                    member: 3,
                    period: 258,
                    kwh: 10_000,
                }),
                b"\x00\x08\x02\x03\x01\x02\x00\x00\x27\x10",
            ),
            (
                Posting::Price {
                    period: 95,
                    price: -4000,
                },
                b"\x00\x07\x03\x00\x5f\xff\xff\xf0\x60",
            ),
            (
                FIGURES,
                b"\x00\x44\x04\x00\x01\x00\x01\x38\x80\x00\x00\xea\x60\x00\x00\x0f\xa0\x00\x00\x4e\x20\xff\xff\xf8\x30\x00\x00\x00\x00\x00\x00\x00\x00\x00\x00\x00\x00\x00\x00\x00\x00\x00\x00\x00\x00\x00\x00\x00\x00\x00\x00\x00\x00\x00\x00\x00\x00\x02\x00\x00\x00\x00\xff\xff\xff\xf9\x00\x00\x23\x28",
            ),
            (Posting::Settle { period: 2975 }, b"\x00\x03\x05\x0b\x9f"),
            (Posting::Reopen { period: 2975 }, b"\x00\x03\x06\x0b\x9f"),
        ];
        for (posting, bytes) in &cases {
            check_record(&rt, *posting, bytes);
        }
    }
}
