use super::*;

#[test]
fn each_tool_has_its_probes(rt: HostRuntime) {
    for (class, calls, memory) in [
        (Class::Plain, None, None),
        (Class::Call, Some(ProbeKind::Call), None),
        (Class::Jump, None, None),
        (Class::Branch, None, None),
        (Class::Load, None, Some(ProbeKind::Load)),
        (Class::Store, None, Some(ProbeKind::Store)),
        (Class::Ask, None, None),
        (Class::Break, None, None),
        (Class::None, None, None),
    ] {
        assert!(rt; probe_for(Tool::Blocks, class, 0, true) == Some(ProbeKind::Block));
        assert!(rt; probe_for(Tool::Blocks, class, 1, true) == None);
        assert!(rt; probe_for(Tool::Calls, class, 3, true) == calls);
        assert!(rt; probe_for(Tool::Calls, class, 3, false) == None);
        assert!(rt; probe_for(Tool::Memory, class, 3, false) == memory);
    }
}
