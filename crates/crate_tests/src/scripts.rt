//! Scripts that are bad, and where. What good ones say, and that a script may be too long, is in tests/transcripts and tests/ends.
use script_language::{ScriptError, parse};

// Scripts, with the first bad line of each.
static BAD_LINES: [(&str, u64); 69] = [
    // Words that are missing, too many, or not allowed there.
    ("stop", 1),
    ("stop 0\n\nstop 0 1\nstop\n", 3),
    ("step 0", 1),
    ("key 0 0", 1),
    ("release 0 1", 1),
    ("release 0 byte 1", 1),
    ("release 0 write 1 2", 1),
    ("release 0 sector 1 2", 1),
    ("show", 1),
    ("packet 0 0", 1),
    ("node one", 1),
    ("halt 0", 1),
    ("STOP 0", 1),
    ("pair 0", 1),
    ("sendpart 0", 1),
    ("part 1 2 3", 1),
    ("fetch", 1),
    ("fetch 4 1", 1),
    ("fetched 4", 1),
    // Numbers and bytes.
    ("stop 18446744073709551616", 1),
    ("stop 99999999999999999999", 1),
    ("stop -1", 1),
    ("stop +1", 1),
    ("stop 0x1", 1),
    ("type 0 4", 1),
    ("type 0 041", 1),
    ("type 0 4G", 1),
    // Setup.
    ("mem 0000", 1),
    ("mem 000 00", 1),
    ("mem 10000 00", 1),
    ("mem 0000 00 0", 1),
    ("mem FFFF 01 02", 1),
    ("drives 0", 1),
    ("drives 5", 1),
    ("levels 0 0", 1),
    ("levels 0 0 8", 1),
    ("sense", 1),
    ("hosts 1", 1),
    ("hosts 65", 1),
    ("sector 0 77 0 00", 1),
    ("sector 0 0 32 00", 1),
    ("sector 0 0 0", 1),
    ("sector 0 0 0 00 00", 1),
    ("fail", 1),
    ("fail 1 2", 1),
    ("fail -1", 1),
    ("fail 18446744073709551616", 1),
    ("failed 1", 1),
    ("stop 0\nfail 1", 2),
    ("reads", 1),
    ("reads logged", 1),
    ("reads sharedly", 1),
    ("reads shared shared", 1),
    ("stop 0\nreads shared", 2),
    ("stop 0\ndrives 1\nstop", 2),
    ("show 0\n# setup\nmem 0000 00", 3),
    // A drive that the final setup lacks.
    ("sector 1 0 0 00", 1),
    ("drives 2\n\nsector 1 0 0 00\ndrives 1\nstop 0", 3),
    ("sector 4 0 0 00\ndrives 4", 1),
    ("sector 0 0 0 00\nsector 2 0 0 00\ndrives 2\nstop", 2),
    ("drives 4\nsector 3 0 0 00\nstop\n", 3),
    ("sector 3 0 0 00\nstop\ndrives 4", 2),
    ("sector 3 0 0 00\ndrives 4 4", 1),
    // Spaces and line ends.
    ("\n \n", 2),
    ("stop 0\r", 1),
    ("\r", 1),
    ("stop 0\r\r\n", 1),
    ("stop\t0", 1),
    (" # no comment", 1),
];

// Scripts that have none.
static GOOD: [&str; 7] = [
    "stop 0\r\nstop 1\r\n",
    "\n\r\n\nstop 0",
    "#\n# stop 9\n#\r\n#\r",
    "  stop   0  \n stop 1",
    "mem 0000 00 \nmem fFfE d3 Ff\nshow 0",
    "type 300 FF\nrelease 0 byte 256 6\nstep 18446744073709551615 0\nsend 0 007",
    "drives 4\ndrives 2\nsector 1 76 31 E5\nfail 1\nfail 300\nreads shared\nreads shared",
];

#[test]
fn the_first_bad_line_is_named(rt: HostRuntime) {
    for (text, wanted) in &BAD_LINES {
        let Err(ScriptError::BadScript { line }) = parse(rt.alloc(), text.as_bytes()) else {
            panic!(rt; "{text:?}");
        };
        assert!(rt; line == *wanted, "{text:?}");
    }
    for text in &GOOD {
        assert!(rt; parse(rt.alloc(), text.as_bytes()).is_ok(), "{text:?}");
    }
}
