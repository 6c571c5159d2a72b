// What the program `rehearse` prints of a text. What is expected was worked out by a small program of its own, from the
// rules in docs/ alone.
use rehearsals::rehearsal_text;
use std::alloc::{AllocError, Global};
use std::test::Fail;

fn prints(heap: Global, text: &[u8], printed: &str) -> Result<bool, AllocError> {
    Ok(rehearsal_text(heap, text)?.as_str() == printed)
}

#[test]
fn rehearsals_of_a_plan(rt: HostRuntime) -> Result<(), Fail> {
    for (text, printed) in [
        (
            "2 2 0\n5 6 7\n0:13 1:4 0:3 2:4 1:12\n",
            "0 0 5 0 0\n1 1 6 1 0\n4 0 7 2 0\nend 5\n",
        ),
        ("1 1 0\n5\n0:3\n", "end 0\n"),
        ("2 1 7\n5\n0:4 1:4\n", "7 0 5 0 0\nend 8\n"),
    ] {
        assert!(rt; prints(rt.alloc(), text.as_bytes(), printed)?);
    }
    Ok(())
}

#[test]
fn a_first_line_out_of_form(rt: HostRuntime) -> Result<(), Fail> {
    for text in [
        "",
        "2 2 0",
        "0 1 0\n\n\n",
        "65 1 0\n\n\n",
        "1 0 0\n\n\n",
        "1 9 0\n\n\n",
        "1 1 1099511627776\n\n\n",
        "1 1 99999999999999999999999\n\n\n",
        "01 1 0\n\n\n",
        "1  1 0\n\n\n",
        "1 1 0 \n\n\n",
        "1 1\n\n\n",
        "1 1 0 0\n\n\n",
        "1 1:1 0\n\n\n",
        "+1 1 0\n\n\n",
        "1 1 x\n70000\n0:0\n",
    ] {
        assert!(rt; prints(rt.alloc(), text.as_bytes(), "refused 15 1\n")?);
    }
    Ok(())
}

#[test]
fn a_second_line_out_of_form(rt: HostRuntime) -> Result<(), Fail> {
    for text in [
        "1 1 0\n",
        "1 1 0\n5",
        "1 1 0\n65536\n\n",
        "1 1 0\n05\n\n",
        "1 1 0\n5 \n\n",
        "1 1 0\n5:1\n\n",
        "1 1 0\n70000\n2:1\n",
        "1 1 0\n1 1 1 1 1 1 1 1 1 1 1 1 1 1 1 1 1 1 1 1 1 1 1 1 1 1 1 1 1 1 1 1 1 1 1 1 1 1 1 1 1 1 1 1 1 1 1 1 1 1 1 1 1 1 1 1 1 1 1 1 1 1 1 1 1\n\n",
    ] {
        assert!(rt; prints(rt.alloc(), text.as_bytes(), "refused 15 2\n")?);
    }
    assert!(rt; prints(rt.alloc(), b"1 1 0\n\xff\n\n", "refused 15 2\n")?);
    Ok(())
}

#[test]
fn a_third_line_out_of_form(rt: HostRuntime) -> Result<(), Fail> {
    for text in [
        "1 1 0\n\n",
        "1 1 0\n\n0:1",
        "1 1 0\n\n2:1\n",
        "1 1 0\n\n0:0\n",
        "1 1 0\n\n0:4097\n",
        "1 1 0\n\n1:4096 1:1\n",
        "1 1 0\n\n0\n",
        "1 1 0\n\n0:\n",
        "1 1 0\n\n:1\n",
        "1 1 0\n\n0:1:1\n",
        "1 1 0\n\n0:01\n",
        "1 1 0\n\n1:1 \n",
        "1 1 0\n\n1:1 1:1 1:1 1:1 1:1 1:1 1:1 1:1 1:1 1:1 1:1 1:1 1:1 1:1 1:1 1:1 1:1 1:1 1:1 1:1 1:1 1:1 1:1 1:1 1:1 1:1 1:1 1:1 1:1 1:1 1:1 1:1 1:1 1:1 1:1 1:1 1:1 1:1 1:1 1:1 1:1 1:1 1:1 1:1 1:1 1:1 1:1 1:1 1:1 1:1 1:1 1:1 1:1 1:1 1:1 1:1 1:1 1:1 1:1 1:1 1:1 1:1 1:1 1:1 1:1\n",
    ] {
        assert!(rt; prints(rt.alloc(), text.as_bytes(), "refused 15 3\n")?);
    }
    Ok(())
}

#[test]
fn text_after_the_third_line(rt: HostRuntime) -> Result<(), Fail> {
    for text in ["1 1 0\n\n\n\n", "1 1 0\n\n\nx"] {
        assert!(rt; prints(rt.alloc(), text.as_bytes(), "refused 15 4\n")?);
    }
    Ok(())
}

#[test]
fn plans_at_the_edge_of_the_form(rt: HostRuntime) -> Result<(), Fail> {
    for (text, printed) in [
        ("1 1 0\n\n\n", "end 0\n"),
        ("64 8 1099511627775\n65535\n8:1\n", "end 1099511627775\n"),
        ("1 1 0\n\n1:4096\n", "end 0\n"),
        (
            "1 1 0\n1 1 1 1 1 1 1 1 1 1 1 1 1 1 1 1 1 1 1 1 1 1 1 1 1 1 1 1 1 1 1 1 1 1 1 1 1 1 1 1 1 1 1 1 1 1 1 1 1 1 1 1 1 1 1 1 1 1 1 1 1 1 1 1\n1:1 1:1 1:1 1:1 1:1 1:1 1:1 1:1 1:1 1:1 1:1 1:1 1:1 1:1 1:1 1:1 1:1 1:1 1:1 1:1 1:1 1:1 1:1 1:1 1:1 1:1 1:1 1:1 1:1 1:1 1:1 1:1 1:1 1:1 1:1 1:1 1:1 1:1 1:1 1:1 1:1 1:1 1:1 1:1 1:1 1:1 1:1 1:1 1:1 1:1 1:1 1:1 1:1 1:1 1:1 1:1 1:1 1:1 1:1 1:1 1:1 1:1 1:1 1:1\n",
            "end 0\n",
        ),
    ] {
        assert!(rt; prints(rt.alloc(), text.as_bytes(), printed)?);
    }
    Ok(())
}

// 14 without an item left, and 6 at the highest rank, of a worker and of the receiver.
#[test]
fn turns_that_are_refused(rt: HostRuntime) -> Result<(), Fail> {
    for (text, printed) in [
        ("1 1 0\n\n0:1\n", "stopped 14 0\nend 0\n"),
        ("1 1 0\n5\n0:5\n", "stopped 14 4\nend 1\n"),
        (
            "1 2 1099511627775\n\n1:1 2:1\n",
            "stopped 6 1\nend 1099511627775\n",
        ),
        (
            "1 1 1099511627775\n5 6\n0:6\n",
            "stopped 6 5\nend 1099511627776\n",
        ),
    ] {
        assert!(rt; prints(rt.alloc(), text.as_bytes(), printed)?);
    }
    Ok(())
}
