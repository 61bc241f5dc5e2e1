use sim_base::ActorId;
use sim_model::merge_ids;
use std::test::Fail;

#[test]
fn an_id_of_both_lists_is_added_once(rt: HostRuntime) -> Result<(), Fail> {
    let mut ids = Vec::new(rt.alloc());
    ids.push(ActorId(9))?;
    merge_ids(
        &mut ids,
        &[ActorId(1), ActorId(4)],
        &[ActorId(2), ActorId(4)],
    )?;
    let merged = [ActorId(9), ActorId(1), ActorId(2), ActorId(4)];
    assert_eq!(rt; ids.as_slice(), merged.as_slice());
    Ok(())
}
