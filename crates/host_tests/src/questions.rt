//! What each question is answered, and what is none.

use crate::running::run;
use scene_run::Status;
use std::test::Fail;

/// A slider in a group, a label with a quote in its text, and each question about them.
const SCRIPT: &[u8] = b"new 10 3 slider
pos 10 0 0
size 10 4 2
range 10 0 100
value 10 42
group 1
join 1 10
tick 30
#? value 10
#? states 10
#? flags 10
#? place 10
#? visible 10
#? offset 10
#? reach 10
#? property 10 main x
#? property 3 main bg_color
#? active
#? hit 0 0
#? hit -1 0
#? focused 1
#? focused 2
#? time
value 10 7
#? value 10
new 11 3 label
text 11 \"a\\\\\\\"\\n\"
#? text 11
#? text 12
#? value 12
#?
#? value
#? value 10 10
#? values 10
# value 10
 #? value 10
#? value 10";

const ANSWERS: &str = "9 value 42
10 states 2
11 flags 2
12 place 0 0 3 1
13 visible 0 0 3 1
14 offset 0 0
15 reach 0 0
16 unknown
17 property 16777215
18 active 3
19 hit 10
20 hit none
21 focused 10
22 focused none
23 time 30
25 value 7
28 text \"a\\\\\\\"\\n\"
29 text none
30 value none
31 unknown
32 unknown
33 unknown
34 unknown
";

#[test]
fn questions_are_answered(rt: HostRuntime) -> Result<(), Fail> {
    let ran = run(rt.alloc(), SCRIPT, &[], &[])?;
    ran.check_answers(&rt, true, ANSWERS);
    Ok(())
}

/// What has children, and something of most pools.
const TREE: &[u8] = b"new 10 3 obj
new 11 10 label
new 12 10 slider
text 11 \"29 bytes are two chunks, here\"
on 12 clicked say
group 1
style 1
set 1 bg_opa 255
local 12 main bg_opa 255
use 12 1 main
#? children 10
back 12
#? children 10
#? children 11
#? children 13
#? used
#? used texts
delete 11
#? used texts
#? children
#? used none
#? used texts 1
#? pending
frame
#? pending
";

const TREE_ANSWERS: &str = "11 children 11 12
13 children 12 11
14 children
15 children none
16 used objects 6 256 styles 1 64 entries 2 1024 uses 1 512 texts 2 1024 fonts 0 4 glyphs 0 512 ink 0 16384 \
    images 0 16 pixels 0 65536 handlers 1 256 groups 1 8 anims 0 32
17 used texts 2 1024
19 used texts 0 1024
20 unknown
21 unknown
22 unknown
23 pending 8
25 pending 0
";

#[test]
fn trees_and_pools_are_told(rt: HostRuntime) -> Result<(), Fail> {
    let ran = run(rt.alloc(), TREE, &[], &[])?;
    ran.check_answers(&rt, true, TREE_ANSWERS);
    Ok(())
}

/// The put of the second child's name fails: the line stands to the half of it.
#[test]
fn children_that_cannot_be_written(rt: HostRuntime) -> Result<(), Fail> {
    let script = b"new 1000 3 obj\nnew 1001 3 obj\n#? children 3\n#? time\n";
    let ran = run(rt.alloc(), script, &[], &[3])?;
    ran.check_answers(&rt, false, "3 children 1000 1");
    Ok(())
}

#[test]
fn answers_that_cannot_be_written(rt: HostRuntime) -> Result<(), Fail> {
    let script = b"#? active\n#? time\n#? active\nframe\n";
    let ran = run(rt.alloc(), script, &[], &[2])?;
    ran.check_end(&rt, Status::Done, "4 frame 1 done\n");
    ran.check_answers(&rt, false, "1 active 3\n2 ti");
    Ok(())
}
