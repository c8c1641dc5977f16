//! Serial lines from text to text.
use formats::Failure;
use readout::decode_text;
use samples::Refusal;
use std::alloc::Global;

/// Whether a text is listed so.
fn lists(alloc: Global, text: &[u8], listing: &str) -> bool {
    decode_text(alloc, text).is_ok_and(|out| out.as_str() == listing)
}

#[test]
fn words_are_listed_with_their_places(rt: HostRuntime) {
    let cases: [(&[u8], &str); 9] = [
        (b"serial line 0 bit 4", ""),
        (b"serial line 0 bit 4\n", ""),
        (b"serial line 0 bit 4\n0 38\n", ""),
        (b"serial line 0 bit 4\n0 39\n", "broken 0 at 38\n"),
        (b"serial line 0 bit 4\n0 40\n1 1\n", "broken 0 at 38\n"),
        (
            b"serial line 0 bit 4\n0 4\n1 4\n0 20\n1 4\n0 4\n1 4",
            "byte 65 at 38\n",
        ),
        // Line 15, with others that change within its levels, and runs that cut them.
        (
            b"serial line 0015 bit 04\n32768 3\n1 2\n2 2\n65535 4\n3 20\n40000 4\n0 1\n0 3\n32768 4\n",
            "byte 65 at 41\n",
        ),
        (
            b"serial line 1 bit 2\n0 2\n2 18\n0 18\n2 2\n",
            "byte 255 at 19\nbyte 0 at 39\n",
        ),
        // Places go on past what one run counts.
        (b"serial line 0 bit 1000000\n1 65535\n1 65535\n", ""),
    ];
    for (text, listing) in cases {
        assert!(rt; lists(rt.alloc(), text, listing));
    }
    let far = b"serial line 2 bit 4\n4 65535\n4 65535\n4 65535\n0 39\n";
    assert!(rt; lists(rt.alloc(), far, "broken 0 at 196643\n"));
}

#[test]
fn texts_are_refused_in_order(rt: HostRuntime) {
    let cases: [(&[u8], Refusal); 12] = [
        (b"", Refusal::Text(0)),
        (b"\n", Refusal::Text(0)),
        (b"0 4\n", Refusal::Text(0)),
        (b"serial line 0 bit 4 \n", Refusal::Text(0)),
        (b"serial line 16 bit 1\nx", Refusal::Setting(0)),
        (b"serial line 16 bit 1000001\n", Refusal::Setting(0)),
        (b"serial line 16 bit 4\nx", Refusal::Setting(1)),
        (
            b"serial line 340282366920938463463374607431768211456 bit 4\n",
            Refusal::Setting(1),
        ),
        (
            b"serial line 0 bit 340282366920938463463374607431768211456\n",
            Refusal::Setting(0),
        ),
        (b"serial line 0 bit 4\n\n", Refusal::Text(1)),
        (
            b"serial line 0 bit 4\n0 5\n0 0\n70000 1\n",
            Refusal::Text(2),
        ),
        (
            b"serial line 0 bit 4\n0 5\n70000 1\nx\n",
            Refusal::Samples(5),
        ),
    ];
    for (text, refusal) in cases {
        let out = decode_text(rt.alloc(), text);
        assert!(rt; out.is_err_and(|failure| failure == Failure::Refused(refusal)));
    }
}
