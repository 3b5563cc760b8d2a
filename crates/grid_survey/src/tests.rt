ghost use Rattle.std.specs.Prelude.{◌≤◌};

use super::*;
use road_io::Gathered;
use std::str;
use std::test::Fail;

// The text of a survey.
fn text_of(
    rt: &(impl Threads + Sync),
    alloc: Global,
    seed: u64,
    width: u32,
    height: u32,
    queries: u32,
) -> Result<String, Fail>
    requires { queries ≤ 10000 }
{
    let summary = survey(rt, alloc, seed, width, height, queries)?;
    let mut lines = Gathered::new(alloc);
    put_summary(&mut lines, &summary)?;
    let text = str::from_utf8(lines.bytes())?;
    Ok(String::from_str(alloc, text)?)
}

// What a program says that reads the definitions plainly.
#[test]
fn counts_what_the_definitions_give(rt: HostRuntime) -> Result<(), Fail> {
    let text = text_of(&rt, rt.alloc(), 0, 2, 1, 1)?;
    assert_eq!(rt;
        text.as_str(),
        "graph vertices 2 arcs 2\nqueries 1 none 0\nroutes 1 length 701\nend\n"
    );
    let text = text_of(&rt, rt.alloc(), 7, 8, 8, 20)?;
    assert_eq!(rt;
        text.as_str(),
        "graph vertices 64 arcs 224\nqueries 20 none 0\nroutes 31 length 71506\nend\n"
    );
    let text = text_of(&rt, rt.alloc(), 0, 1, 1, 3)?;
    assert_eq!(rt;
        text.as_str(),
        "graph vertices 1 arcs 0\nqueries 3 none 0\nroutes 3 length 0\nend\n"
    );
    Ok(())
}

#[test]
fn gives_the_same_summary_again(rt: HostRuntime) -> Result<(), Fail> {
    let once = survey(&rt, rt.alloc(), 7, 6, 6, 5)?;
    let again = survey(&rt, rt.alloc(), 7, 6, 6, 5)?;
    assert_eq!(rt; once, again);
    assert_eq!(rt; once.length, 9217);
    Ok(())
}

#[test]
fn refuses_sides_outside_1_to_4096(rt: HostRuntime) {
    assert_eq!(rt;
        survey(&rt, rt.alloc(), 0, 4097, 1, 1),
        Err(MakeFault::Size)
    );
}
