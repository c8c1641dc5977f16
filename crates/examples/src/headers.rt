//! Headers of texts.
use readout::{Settings, read_header};

/// Whether a text begins with the header of these settings and goes on so.
fn reads(text: &[u8], settings: Settings, after: &[u8]) -> bool {
    read_header(text).is_some_and(|(read, rest)| read == settings && rest == after)
}

#[test]
fn headers_are_read_with_what_follows(rt: HostRuntime) {
    let header = Settings::Serial { line: 3, bit: 104 };
    assert!(rt; reads(b"serial line 3 bit 104\n7 3\n", header, b"7 3\n"));
    assert!(rt; reads(b"serial line 3 bit 104\n", header, b""));
    assert!(rt; reads(b"serial line 3 bit 104", header, b""));
    assert!(rt; reads(b"serial line 003 bit 000104\n\n", header, b"\n"));
    let large = Settings::Serial {
        line: 0,
        bit: 1_000_000,
    };
    assert!(rt; reads(b"serial line 0 bit 1000000\n", large, b""));
    let largest = read_header(b"serial line 99999999999 bit 1000001");
    assert!(rt;
        largest.is_some_and(|(Settings::Serial { line, bit }, _)| line > 1_000_000
            && bit > 1_000_000)
    );
}

#[test]
fn other_lines_are_no_headers(rt: HostRuntime) {
    let texts: [&[u8]; 15] = [
        b"",
        b"\n",
        b"7 3\n",
        b"serial",
        b"serial line ",
        b"serial line x bit 104\n",
        b"serial line 3",
        b"serial line 3\n",
        b"serial line 3 bit ",
        b"serial line 3 bit x\n",
        b"serial line 3 bit 104 \n",
        b"serial line 3 bit 104\r\n",
        b"serial line 3  bit 104\n",
        b" serial line 3 bit 104\n",
        b"Serial line 3 bit 104\n",
    ];
    for text in texts {
        assert!(rt; read_header(text).is_none());
    }
}
