// Set files at the edge of every question.
use mesh::{Point, Triangle};
use set_file::{FileFault, LIBRARY_LIMIT, PROGRAM_LIMIT, Place, Refusal, read};
use std::process::Abort;
use std::test::Fail;

// A file, what is refused of it, and how much is in the lists then.
#[derive(Clone, Copy)]
struct Case {
    file: &'static [u8],
    refusal: Option<Refusal>,
    points: usize,
    triangles: usize,
}

const fn refused(number: u32, line: usize, word: usize) -> Option<Refusal> {
    let at = Place { line, word };
    Some(Refusal { number, at })
}

const fn reading(
    file: &'static [u8],
    refusal: Option<Refusal>,
    points: usize,
    triangles: usize,
) -> Case {
    Case {
        file,
        refusal,
        points,
        triangles,
    }
}

fn told(answer: Result<(), FileFault>) -> Option<Refusal> {
    answer.err().and_then(FileFault::refusal)
}

fn all_hold(rt: &(impl Abort + AllocGlobal), cases: &[Case]) {
    for case in cases {
        let mut points = Vec::new(rt.alloc());
        let mut triangles = Vec::new(rt.alloc());
        let answer = read(case.file, PROGRAM_LIMIT, &mut points, &mut triangles);
        assert_eq!(rt; told(answer), case.refusal);
        assert_eq!(rt; answer.is_ok(), case.refusal.is_none());
        assert_eq!(rt; points.len(), case.points);
        assert_eq!(rt; triangles.len(), case.triangles);
    }
}

#[test]
fn lines_and_words(rt: HostRuntime) {
    let cases = [
        reading(b"", None, 0, 0),
        reading(b"\n\n \t \n", None, 0, 0),
        reading(b"# v 1\n  # f\n#", None, 0, 0),
        reading(b"v 1 2 3", None, 1, 0),
        reading(b"v 1 2 3\n", None, 1, 0),
        reading(b"\t v\t1  2\t\t3 \n", None, 1, 0),
        reading(b"v 1 2 3\r\n", refused(4, 1, 4), 0, 0),
        reading(b"v 1 2 3 \r\n", refused(3, 1, 0), 0, 0),
        reading(b"\r\n", refused(2, 1, 1), 0, 0),
        reading(b"vv 1 2 3", refused(2, 1, 1), 0, 0),
        reading(b"V 1 2 3", refused(2, 1, 1), 0, 0),
        reading(b"\n\nv 1 2 3\n\xff\xfe", refused(2, 4, 1), 1, 0),
        reading(b"v 1 2", refused(3, 1, 0), 0, 0),
        reading(b"v 1 2 3 4", refused(3, 1, 0), 0, 0),
        reading(b"v 1 2 3 # no comment here", refused(3, 1, 0), 0, 0),
        reading(b"v", refused(3, 1, 0), 0, 0),
    ];
    all_hold(&rt, &cases);
}

#[test]
fn numbers(rt: HostRuntime) {
    let cases = [
        reading(b"v 10000 0 0", None, 1, 0),
        reading(b"v -10000 10000 -10000", None, 1, 0),
        reading(b"v 00001 -0 -00009", None, 1, 0),
        reading(b"v 10001 0 0", refused(5, 1, 2), 0, 0),
        reading(b"v -10001 0 0", refused(5, 1, 2), 0, 0),
        reading(b"v 0 99999 0", refused(5, 1, 3), 0, 0),
        reading(b"v 0 0 -99999", refused(5, 1, 4), 0, 0),
        reading(b"v 100000 0 0", refused(4, 1, 2), 0, 0),
        reading(b"v 0 000000 0", refused(4, 1, 3), 0, 0),
        reading(b"v 0 0 -", refused(4, 1, 4), 0, 0),
        reading(b"v +1 0 0", refused(4, 1, 2), 0, 0),
        reading(b"v --1 0 0", refused(4, 1, 2), 0, 0),
        reading(b"v 1. 0 0", refused(4, 1, 2), 0, 0),
        reading(b"v 0 1\xb2 0", refused(4, 1, 3), 0, 0),
        reading(b"v 0 :0 0", refused(4, 1, 3), 0, 0),
        reading(b"v 0 /0 0", refused(4, 1, 3), 0, 0),
        // the leftmost word is judged whole before the next
        reading(b"v 10001 x 0", refused(5, 1, 2), 0, 0),
        reading(b"v 0 0 0\nv x 10001 0", refused(4, 2, 2), 1, 0),
    ];
    all_hold(&rt, &cases);
}

#[test]
fn faces(rt: HostRuntime) {
    let cases = [
        reading(b"v 0 0 0\nv 1 0 0\nv 0 1 0\nf 1 2 3", None, 3, 1),
        reading(b"f 1 2 3", refused(5, 1, 2), 0, 0),
        reading(
            b"v 0 0 0\nv 1 0 0\nv 0 1 0\nf 0 1 2",
            refused(5, 4, 2),
            3,
            0,
        ),
        reading(
            b"v 0 0 0\nv 1 0 0\nv 0 1 0\nf 1 2 4\n",
            refused(5, 4, 4),
            3,
            0,
        ),
        reading(
            b"v 0 0 0\nv 1 0 0\nv 0 1 0\nf 1 -2 3",
            refused(5, 4, 3),
            3,
            0,
        ),
        reading(
            b"v 0 0 0\nv 1 0 0\nv 0 1 0\nf 1 2/2 3",
            refused(4, 4, 3),
            3,
            0,
        ),
        reading(
            b"v 0 0 0\nv 1 0 0\nv 0 1 0\nf 1 1 2",
            refused(6, 4, 0),
            3,
            0,
        ),
        reading(
            b"v 0 0 0\nv 1 0 0\nv 0 1 0\nf 1 2 2",
            refused(6, 4, 0),
            3,
            0,
        ),
        reading(
            b"v 0 0 0\nv 1 0 0\nv 0 1 0\nf 3 2 3",
            refused(6, 4, 0),
            3,
            0,
        ),
        reading(
            b"v 0 0 0\nv 1 0 0\nv 0 1 0\nf 1 2 3\n# again\nf 3 2 1\nf 1 2",
            refused(3, 7, 0),
            3,
            2,
        ),
    ];
    all_hold(&rt, &cases);
}

// A comment may fill a file up to the limit, and one byte more is refused.
fn limit_holds(rt: &(impl Abort + AllocGlobal), limit: usize) -> Result<(), Fail> {
    let mut points = Vec::new(rt.alloc());
    let mut triangles = Vec::new(rt.alloc());
    let mut file = vec![in rt.alloc(); b'#'; limit]?;
    assert!(rt; read(&file, limit, &mut points, &mut triangles).is_ok());
    file.push(b'#')?;
    let answer = read(&file, limit, &mut points, &mut triangles);
    assert_eq!(rt; told(answer), refused(1, 0, 0));
    Ok(())
}

#[test]
fn sizes(rt: HostRuntime) -> Result<(), Fail> {
    limit_holds(&rt, 0)?;
    limit_holds(&rt, PROGRAM_LIMIT)?;
    limit_holds(&rt, LIBRARY_LIMIT)
}

#[test]
fn full_lists(rt: HostRuntime) -> Result<(), Fail> {
    let mut points = vec![in rt.alloc(); Point::default(); 65535]?;
    let mut triangles = vec![in rt.alloc(); Triangle { a: 0, b: 1, c: 2 }; 65535]?;
    let answer = read(
        b"v 1 2 3\nf 1 2 65536\nf 2 1 3",
        PROGRAM_LIMIT,
        &mut points,
        &mut triangles,
    );
    assert_eq!(rt; told(answer), refused(7, 3, 0));
    assert_eq!(rt; triangles.len(), 65536);
    let answer = read(b"v 1 2 3", PROGRAM_LIMIT, &mut points, &mut triangles);
    assert_eq!(rt; told(answer), refused(7, 1, 0));
    assert_eq!(rt; points.len(), 65536);
    Ok(())
}

#[test]
fn lists_are_appended(rt: HostRuntime) -> Result<(), Fail> {
    let mut points = vec![in rt.alloc(); Point { x: 7, y: 8, z: 9 }]?;
    let mut triangles = vec![in rt.alloc(); Triangle { a: 5, b: 6, c: 7 }]?;
    let answer = read(
        b"v 1 2 3\nv -4 5 -6\nf 3 1 2\nv 0 0",
        PROGRAM_LIMIT,
        &mut points,
        &mut triangles,
    );
    assert_eq!(rt; told(answer), refused(3, 4, 0));
    let held = [
        Point { x: 7, y: 8, z: 9 },
        Point { x: 1, y: 2, z: 3 },
        Point { x: -4, y: 5, z: -6 },
    ];
    assert_eq!(rt; &points[..], &held[..]);
    let held = [Triangle { a: 5, b: 6, c: 7 }, Triangle { a: 2, b: 0, c: 1 }];
    assert_eq!(rt; &triangles[..], &held[..]);
    Ok(())
}
