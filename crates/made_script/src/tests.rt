use super::make_script;
use std::test::Fail;

#[test]
fn one_key(rt: HostRuntime) -> Result<(), Fail> {
    let text = make_script(rt.alloc(), 1)?;
    assert_eq!(rt;
        text.as_slice(),
        b"table e p
session
begin rc
insert t1 1 c2001.1 x010203
commit
begin rc
update t1 1 1=c3001.1
commit
begin rr
get t1 1
commit
session
session
session
session
session
session
session
session
vacuum t1 toast
vacuum t1 toast
session
vacuum t1 main
vacuum t1 main
session
rewrite t1
loop 4 1 2 3 4 5 6 7 8 9 10
"
            .as_slice()
    );
    Ok(())
}
