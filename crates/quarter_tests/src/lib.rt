// What the program quarter says of examples, from its input text to its output text.
#![tactic(auto)]

#[cfg(test)]
mod tests {
    use explanation::explain;
    use std::alloc::{AllocError, Global};
    use std::process::Abort;
    use std::test::Fail;

    // The report, or what is told of a failure.
    fn said(heap: Global, text: &str) -> Result<String, AllocError> {
        match explain(text.as_bytes()) {
            Ok(report) => format!(in heap; "{report}"),
            Err(failure) => format!(in heap; "{failure}"),
        }
    }

    // Each case is a text and what is said of it.
    fn check_all(rt: &impl Abort, heap: Global, cases: &[(&str, &str)]) -> Result<(), Fail> {
        for (text, answer) in cases {
            assert_eq!(rt; said(heap, text)?.as_str(), *answer, "{}", text);
        }
        Ok(())
    }

    #[test]
    fn prices_are_explained(rt: HostRuntime) -> Result<(), Fail> {
        check_all(
            &rt,
            rt.alloc(),
            &[
                (
                    "imbalance 80000\n\
                     down 60000 4000\n\
                     down 20000 -2000\n\
                     index 9000\n",
                    "The system has a surplus of 80000 kWh: the price is the least candidate.\n\
                     Base, the mean price of the downward activations: 200000000/80000, rounded 2500\n\
                     Index less its margin: 27000/4, rounded 6750\n\
                     Base scaled by the imbalance: -16000000000000/4000000000, rounded -4000\n\
                     Decided by the scaled base.\n\
                     Price: -4000 stotinki per MWh\n",
                ),
                (
                    "imbalance 50000\n\
                     down 60000 4000\n\
                     down 20000 -2000\n\
                     index 9000\n",
                    "The system has a surplus of 50000 kWh: the price is the least candidate.\n\
                     Base, the mean price of the downward activations: 200000000/80000, rounded 2500\n\
                     Index less its margin: 27000/4, rounded 6750\n\
                     Decided by the base.\n\
                     Price: 2500 stotinki per MWh\n",
                ),
                (
                    "imbalance 50001\n\
                     down 60000 4000\n\
                     down 20000 -2000\n\
                     index 9000\n",
                    "The system has a surplus of 50001 kWh: the price is the least candidate.\n\
                     Base, the mean price of the downward activations: 200000000/80000, rounded 2500\n\
                     Index less its margin: 27000/4, rounded 6750\n\
                     Base scaled by the imbalance: -10000200000000/4000000000, rounded -2500\n\
                     Decided by the scaled base.\n\
                     Price: -2500 stotinki per MWh\n",
                ),
                (
                    "imbalance 0\n\
                     down 60000 4000\n\
                     down 20000 -2000\n\
                     index 9000\n",
                    "The system is in balance: the price is the index.\n\
                     Price: 9000 stotinki per MWh\n",
                ),
                (
                    "imbalance -60000\n\
                     up 30000 20000\n\
                     up 10000 23334\n\
                     index -2000\n",
                    "The system has a shortage of 60000 kWh: the price is the greatest candidate.\n\
                     Base, the mean price of the upward activations: 833340000/40000, rounded 20834\n\
                     Index plus its margin: -4000/4, rounded -1000\n\
                     Base scaled by the imbalance: 50000400000000/2000000000, rounded 25000\n\
                     Decided by the scaled base.\n\
                     Price: 25000 stotinki per MWh\n",
                ),
                (
                    "imbalance 1\n\
                     down 1 -3\n\
                     down 1 -4\n\
                     index 3000\n",
                    "The system has a surplus of 1 kWh: the price is the least candidate.\n\
                     Base, the mean price of the downward activations: -7/2, rounded -4\n\
                     Index less its margin: 8000/4, rounded 2000\n\
                     Decided by the base.\n\
                     Price: -4 stotinki per MWh\n",
                ),
                (
                    "imbalance 1\n\
                     down-bid 5000\n\
                     up-bid -1\n\
                     index 6000\n",
                    "The system has a surplus of 1 kWh: the price is the least candidate.\n\
                     Base, the downward bid: 5000/1, rounded 5000\n\
                     Index less its margin: 18000/4, rounded 4500\n\
                     Decided by the index.\n\
                     Price: 4500 stotinki per MWh\n",
                ),
                (
                    "imbalance -500000\n\
                     up 1000000 3000000\n\
                     up 1000000 3000000\n\
                     up 1000000 3000000\n\
                     up-bid 7\n\
                     index 3000000\n",
                    "The system has a shortage of 500000 kWh: the price is the greatest candidate.\n\
                     Base, the mean price of the upward activations: 9000000000000/3000000, rounded 3000000\n\
                     Index plus its margin: 15000000/4, rounded 3750000\n\
                     Base scaled by the imbalance: 4500000000000000000/150000000000, rounded 30000000\n\
                     Decided by the scaled base.\n\
                     Price: 30000000 stotinki per MWh\n",
                ),
                (
                    "imbalance -50001\n\
                     down 5 1\n\
                     up-bid -8000\n\
                     index -8000\n",
                    "The system has a shortage of 50001 kWh: the price is the greatest candidate.\n\
                     Base, the upward bid: -8000/1, rounded -8000\n\
                     Index plus its margin: -24000/4, rounded -6000\n\
                     Base scaled by the imbalance: 400008000/50000, rounded 8000\n\
                     Decided by the scaled base.\n\
                     Price: 8000 stotinki per MWh\n",
                ),
            ],
        )
    }

    #[test]
    fn figures_are_refused(rt: HostRuntime) -> Result<(), Fail> {
        check_all(
            &rt,
            rt.alloc(),
            &[
                (
                    "imbalance 500001\nindex 0",
                    "refused 9: a figure out of range (run)",
                ),
                (
                    "imbalance -500001\nindex 0",
                    "refused 9: a figure out of range (run)",
                ),
                (
                    "imbalance 1\ndown 1000001 0\nindex 0",
                    "refused 9: a figure out of range (run)",
                ),
                (
                    "imbalance 0\nup 0 3000001\nindex 0",
                    "refused 9: a figure out of range (run)",
                ),
                (
                    "imbalance 0\nup-bid -3000001\nindex 0",
                    "refused 9: a figure out of range (run)",
                ),
                (
                    "imbalance 1\nindex -3000001",
                    "refused 9: a figure out of range (run)",
                ),
                (
                    "imbalance 1\nup 7 7\nup-bid 7\nindex 0",
                    "refused 10: no base for a price (run)",
                ),
                (
                    "imbalance -1\ndown 7 7\nup 0 7\ndown-bid 7\nindex 0",
                    "refused 10: no base for a price (run)",
                ),
            ],
        )
    }

    #[test]
    fn faulty_lines_are_named(rt: HostRuntime) -> Result<(), Fail> {
        check_all(
            &rt,
            rt.alloc(),
            &[
                ("imbalance 1\nfoo 2\n", "line 2: unknown keyword"),
                ("Index 1", "line 1: unknown keyword"),
                ("imbalance", "line 1: a number is missing"),
                (
                    "imbalance 1\ndown 5\nindex 1",
                    "line 2: a number is missing",
                ),
                (
                    "\n# so far nothing\nindex 12x\n",
                    "line 3: not a whole number of at most nine digits",
                ),
                (
                    "index 1234567890",
                    "line 1: not a whole number of at most nine digits",
                ),
                (
                    "index +1",
                    "line 1: not a whole number of at most nine digits",
                ),
                (
                    "up-bid --1",
                    "line 1: not a whole number of at most nine digits",
                ),
                (
                    "down -5 3",
                    "line 1: not an energy: at most nine digits and no sign",
                ),
                ("index 1 2", "line 1: more than the keyword takes"),
                ("down-bid 1\ndown-bid 1", "line 2: given once too often"),
                (
                    "up 1 1\nup 1 1\nup 1 1\nup 1 1",
                    "line 4: given once too often",
                ),
                ("", "no imbalance line"),
                ("index 1", "no imbalance line"),
                ("imbalance 1", "no index line"),
            ],
        )
    }

    #[test]
    fn groups_are_netted(rt: HostRuntime) -> Result<(), Fail> {
        check_all(
            &rt,
            rt.alloc(),
            &[
                (
                    "imbalance 0\nindex -50\ninternal -7\nconsumer 500000 0\n",
                    "The system is in balance: the price is the index.\n\
                     Price: -50 stotinki per MWh\n\
                     Netted in proportion, at an internal price of -7 stotinki per MWh. Energy in kWh, money in thousandths of a stotinka.\n\
                     Member 0: imbalance 500000, netted 0, outside 500000, money -25000000\n\
                     Total: imbalance 500000, netted 0, outside 500000, money -25000000\n",
                ),
                (
                    "producer 5 2\nproducer 2 3\nconsumer 3 2\ninternal 10\nimbalance 0\nindex 100\n",
                    "The system is in balance: the price is the index.\n\
                     Price: 100 stotinki per MWh\n\
                     Netted in proportion, at an internal price of 10 stotinki per MWh. Energy in kWh, money in thousandths of a stotinka.\n\
                     Member 0: imbalance -3, netted -2, outside -1, money -120\n\
                     Member 1: imbalance 1, netted 1, outside 0, money 10\n\
                     Member 2: imbalance 1, netted 1, outside 0, money 10\n\
                     Total: imbalance -1, netted 0, outside -1, money -100\n",
                ),
                (
                    "imbalance 0\nindex 0\nproducer 1 1\n",
                    "no internal price line",
                ),
                (
                    "imbalance 0\nindex 0\ninternal 3000001\nproducer 1 1\n",
                    "refused 4: opening or book figures outside the limits (run)",
                ),
                (
                    "imbalance 0\nindex 0\ninternal 1\nproducer 1 1\nconsumer 500001 1\n",
                    "refused 9: a figure out of range (run, member 1)",
                ),
                ("producer 1\n", "line 1: a number is missing"),
                (
                    "consumer 1 -1\n",
                    "line 1: not an energy: at most nine digits and no sign",
                ),
                ("internal 1\ninternal 1\n", "line 2: given once too often"),
            ],
        )
    }

    #[test]
    fn a_group_has_64_members(rt: HostRuntime) -> Result<(), Fail> {
        let mut text = String::from_str(rt.alloc(), "imbalance 0\nindex 0\ninternal 0\n")?;
        for _ in 0..65 {
            text.push_str("producer 0 0\n")?;
        }
        assert_eq!(rt;
            said(rt.alloc(), text.as_str())?.as_str(),
            "line 68: given once too often"
        );
        Ok(())
    }

    #[test]
    fn blanks_and_comments_are_passed_over(rt: HostRuntime) -> Result<(), Fail> {
        check_all(
            &rt,
            rt.alloc(),
            &[
                (
                    "\timbalance  0\t\r\n\n  # zeros may lead\r\n  index 000000007",
                    "The system is in balance: the price is the index.\nPrice: 7 stotinki per MWh\n",
                ),
                (
                    "index -0\nimbalance 0\n",
                    "The system is in balance: the price is the index.\nPrice: 0 stotinki per MWh\n",
                ),
            ],
        )
    }
}
