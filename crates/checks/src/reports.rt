// Reports on files that are refused, and words that are hard to show.
use set_report::{report_on, report_text, shown_word};
use std::process::Abort;
use std::test::Fail;

fn says(rt: &(impl Abort + AllocGlobal), file: &[u8], text: &str) -> Result<(), Fail> {
    let report = report_on(rt.alloc(), file);
    let written = report_text(rt.alloc(), &report, file)?;
    assert_eq!(rt; written.as_str(), text);
    Ok(())
}

#[test]
fn refused_files(rt: HostRuntime) -> Result<(), Fail> {
    says(
        &rt,
        b"",
        "points: 0\ntriangles: 0\nbox: none\nthis set can be loaded\n",
    )?;
    says(
        &rt,
        b"v -1 2 3\nv 4 -5 6\nvn 0 0 1",
        "points: 2\ntriangles: 0\nbox: x -1 to 4, y -5 to 2, z 3 to 6\nrefused 2 line 3 word 1\nquestion: is the first word `v` or `f`?\nword: vn\n",
    )?;
    says(
        &rt,
        b"v 0 0 0\nv 1 0",
        "points: 1\ntriangles: 0\nbox: x 0 to 0, y 0 to 0, z 0 to 0\nrefused 3 line 2 word 0\nquestion: are there exactly three words after the first?\n",
    )
}

#[test]
fn words_as_text(rt: HostRuntime) -> Result<(), Fail> {
    let heap = rt.alloc();
    assert_eq!(rt;
        shown_word(heap, b"a\\b\x00\x7f\xe9~!")?.as_str(),
        "a\\x5cb\\x00\\x7f\\xe9~!"
    );
    assert_eq!(rt;
        shown_word(heap, b"0123456789012345678901234567890123456789")?.as_str(),
        "0123456789012345678901234567890123456789"
    );
    assert_eq!(rt;
        shown_word(heap, b"01234567890123456789012345678901234567890")?.as_str(),
        "0123456789012345678901234567890123456789..."
    );
    Ok(())
}
