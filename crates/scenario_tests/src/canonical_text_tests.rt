use scenario::Scenario;
use sim_base::Items;
use std::alloc::Global;
use std::test::Fail;

fn printed(alloc: Global, text: &[u8]) -> Result<Items<u8>, Fail> {
    let scenario = Scenario::read(alloc, text)?;
    Ok(scenario.print(alloc)?)
}

/// Scenarios and their canonical texts.
const CANONICAL: [(&str, &str); 4] = [
    (
        r#"{"format":1,"last_tick":4,"actors":[{"name":"c","kind":"clock","count":2,"period":2,"period":3}]}"#,
        r#"{"actors":[{"count":2,"kind":"clock","name":"c","period":3}],"diasca_limit":1000,"format":1,"last_tick":4,"max_actors":10000,"results":["+*"],"seed":0}"#,
    ),
    (
        r#"{"format":1,"last_tick":4,"max_actors":1,"results":[],"actors":[]}"#,
        r#"{"actors":[],"diasca_limit":1000,"format":1,"last_tick":4,"max_actors":1,"results":[],"seed":0}"#,
    ),
    (
        "{\"last_tick\":4,\"format\":1,\"results\":[],\"seed\":18446744073709551615,\
            \"diasca_limit\":65535,\"max_actors\":200000,\"actors\":[{\"kind\":\"clock\",\"name\":\"c\",\
            \"period\":1000000000,\"count\":0},{\"kind\":\"ball\",\"name\":\"b\",\"peer\":\"d\",\
            \"at\":1,\"hits\":3},{\"kind\":\"fuse\",\"name\":\"f\",\"at\":0,\"code\":899},\
            {\"kind\":\"machine\",\"name\":\"m\",\"stock\":1,\"price\":2,\"close_at\":3},\
            {\"kind\":\"customer\",\"name\":\"u\",\"machine\":\"m\",\"period\":1,\"money\":5,\
            \"offer\":1},{\"kind\":\"random_customer\",\"name\":\"r\",\"machine\":\"m\",\"low\":2,\
            \"high\":2,\"money\":0,\"offer\":0},{\"kind\":\"refill\",\"name\":\"l\",\"machine\":\"l\",\
            \"cans\":7},{\"kind\":\"depot\",\"name\":\"d\",\"machine\":\"m\",\"at\":9,\"trucks\":64,\
            \"cans\":1000000}]}",
        "{\"actors\":[{\"count\":0,\"kind\":\"clock\",\"name\":\"c\",\"period\":1000000000},\
            {\"at\":1,\"hits\":3,\"kind\":\"ball\",\"name\":\"b\",\"peer\":\"d\"},{\"at\":0,\
            \"code\":899,\"kind\":\"fuse\",\"name\":\"f\"},{\"close_at\":3,\"kind\":\"machine\",\
            \"name\":\"m\",\"price\":2,\"stock\":1},{\"kind\":\"customer\",\"machine\":\"m\",\
            \"money\":5,\"name\":\"u\",\"offer\":1,\"period\":1},{\"high\":2,\
            \"kind\":\"random_customer\",\"low\":2,\"machine\":\"m\",\"money\":0,\"name\":\"r\",\
            \"offer\":0},{\"cans\":7,\"kind\":\"refill\",\"machine\":\"l\",\"name\":\"l\"},{\"at\":9,\
            \"cans\":1000000,\"kind\":\"depot\",\"machine\":\"m\",\"name\":\"d\",\"trucks\":64}],\
            \"diasca_limit\":65535,\"format\":1,\"last_tick\":4,\"max_actors\":200000,\"results\":[],\
            \"seed\":18446744073709551615}",
    ),
    (
        " { \"actors\" : [ {\"name\":\"m\",\"kind\":\"machine\",\"stock\":0,\"price\":1000000,\
            \"close_at\":7}, {\"name\":\"b\",\"kind\":\"ball\",\"peer\":\"z\",\"at\":1,\"hits\":2}, \
            {\"name\":\"f\",\"kind\":\"fuse\",\"at\":0,\"code\":899}, {\"name\":\"k\",\
            \"kind\":\"clock\",\"period\":3,\"count\":0}, {\"name\":\"c\",\"kind\":\"customer\",\
            \"machine\":\"m\",\"period\":1,\"money\":5,\"offer\":3}, {\"name\":\"r\",\
            \"kind\":\"random_customer\",\"machine\":\"b\",\"low\":1,\"high\":1,\"money\":0,\
            \"offer\":1000000}, {\"name\":\"d\",\"kind\":\"depot\",\"machine\":\"m\",\"at\":7,\
            \"trucks\":64,\"cans\":1}, {\"name\":\"z\",\"kind\":\"refill\",\"machine\":\"z\",\
            \"cans\":9} ] , \"last_tick\":0, \"results\":[\"+*\",\"-b.*\"],\
            \"seed\":18446744073709551615, \"format\" : 1 } ",
        "{\"actors\":[{\"close_at\":7,\"kind\":\"machine\",\"name\":\"m\",\"price\":1000000,\
            \"stock\":0},{\"at\":1,\"hits\":2,\"kind\":\"ball\",\"name\":\"b\",\"peer\":\"z\"},\
            {\"at\":0,\"code\":899,\"kind\":\"fuse\",\"name\":\"f\"},{\"count\":0,\"kind\":\"clock\",\
            \"name\":\"k\",\"period\":3},{\"kind\":\"customer\",\"machine\":\"m\",\"money\":5,\
            \"name\":\"c\",\"offer\":3,\"period\":1},{\"high\":1,\"kind\":\"random_customer\",\"low\":1,\
            \"machine\":\"b\",\"money\":0,\"name\":\"r\",\"offer\":1000000},{\"at\":7,\"cans\":1,\
            \"kind\":\"depot\",\"machine\":\"m\",\"name\":\"d\",\"trucks\":64},{\"cans\":9,\
            \"kind\":\"refill\",\"machine\":\"z\",\"name\":\"z\"}],\"diasca_limit\":1000,\"format\":1,\
            \"last_tick\":0,\"max_actors\":10000,\"results\":[\"+*\",\"-b.*\"],\
            \"seed\":18446744073709551615}",
    ),
];

#[test]
fn a_scenario_and_its_canonical_text_print_alike(rt: HostRuntime) -> Result<(), Fail> {
    for &(text, canonical) in &CANONICAL {
        for text in [text, canonical] {
            let printed = printed(rt.alloc(), text.as_bytes())?;
            assert!(rt; printed.as_slice() == canonical.as_bytes(), "{text}");
        }
    }
    Ok(())
}
