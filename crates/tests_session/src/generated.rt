// The generated example.
use opa_script::generate;
use std::test::Fail;

#[test]
fn two_people(rt: HostRuntime) -> Result<(), Fail> {
    let example = generate(rt.alloc(), 1, 2)?;
    assert_eq!(rt;
        example.rules.as_str(),
        "global\n  currency the total\n  number the number above\nentity the person\n  in global: the people\n  currency the person's income\ngoal the total\ngoal the number above\nthe total = InstanceSum(the people, the person's income)\nthe number above = InstanceCountIf(the people, the person's income > 300)\n"
    );
    assert_eq!(rt;
        example.input.as_str(),
        "list the people = \"P1\", \"P2\"\nanswer the person's income of \"P1\" = 580; from 2024-02-01 585\nanswer the person's income of \"P2\" = 250; from 2024-03-01 255\ngoals\nstats\n"
    );
    Ok(())
}
