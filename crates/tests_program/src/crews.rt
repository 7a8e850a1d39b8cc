//! What a crew handles of the messages that are drawn. What is printed was worked out by another program, from the words alone.

use crate::ground::assert_prints;

const NOTHING: &str = "\
port 1.p.1 0 0
port 2.p.1 0 0
port 3.p.1 0 0
port 4.p.1 0 0
port 5.p.1 0 0
port 6.p.1 0 0
port 7.p.1 0 0
port 8.p.1 0 0
end
";

/// Of 100 draws from 42: no port is full.
pub(crate) const FEW: &str = "\
port 1.p.1 5 267
port 2.p.1 8 368
port 3.p.1 7 368
port 4.p.1 3 95
port 5.p.1 7 406
port 6.p.1 5 236
port 7.p.1 6 239
port 8.p.1 4 336
end
";

/// Of 1,000 draws from 3: some are full.
const MANY: &str = "\
port 1.p.1 63 32339
port 2.p.1 64 30458
port 3.p.1 58 30849
port 4.p.1 63 34145
port 5.p.1 64 26346
port 6.p.1 60 27507
port 7.p.1 60 28480
port 8.p.1 64 25941
end
";

/// Of 65,536 draws from 1: all are full.
const FULL: &str = "\
port 1.p.1 64 32852
port 2.p.1 64 34398
port 3.p.1 64 35415
port 4.p.1 64 31543
port 5.p.1 64 30147
port 6.p.1 64 34950
port 7.p.1 64 33670
port 8.p.1 64 28979
end
";

/// What the program's word `crew` prints for no draw, one, 100 and 1,000, and twice for 65,536, of which all ports are full.
#[test]
fn crew_totals(rt: HostRuntime) {
    for (first, commands, printed) in [
        ("7", "0", NOTHING),
        ("7", "1", NOTHING),
        ("42", "100", FEW),
        ("3", "1000", MANY),
        ("1", "65536", FULL),
        ("1", "65536", FULL),
    ] {
        assert_prints(&rt, rt.alloc(), &["crew", first, commands], "", printed);
    }
}
