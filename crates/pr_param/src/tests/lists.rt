use crate::{OutList, ParamFault, read_out_list, write_out_list};

#[test]
fn lists_are_written_and_read(rt: HostRuntime) {
    let registers = OutList {
        key: 0,
        action_key: 0x90010001,
        spec_i_pt: false,
        all_tg_pt: false,
        aptpl: true,
    };
    let other = OutList {
        key: 0x0102030405060708,
        action_key: 0x1112131415161718,
        spec_i_pt: true,
        all_tg_pt: true,
        aptpl: false,
    };
    let table = [
        (
            registers,
            b"\0\0\0\0\0\0\0\0\0\0\0\0\x90\x01\0\x01\0\0\0\0\x01\0\0\0",
        ),
        (
            other,
            b"\x01\x02\x03\x04\x05\x06\x07\x08\x11\x12\x13\x14\x15\x16\x17\x18\0\0\0\0\x0C\0\0\0",
        ),
    ];
    for (list, bytes) in table {
        let mut out = [0xFF; 24];
        write_out_list(&list, &mut out);
        assert!(rt; out == *bytes);
        assert!(rt; read_out_list(bytes) == Ok(list));
    }
}

#[test]
fn obsolete_and_reserved_places_of_a_list_are_ignored(rt: HostRuntime) {
    let bytes = b"\0\0\0\0\0\0\0\x01\0\0\0\0\0\0\0\x02\xFF\xFF\xFF\xFF\xF2\xFF\xFF\xFF";
    let want = OutList {
        key: 1,
        action_key: 2,
        spec_i_pt: false,
        all_tg_pt: false,
        aptpl: false,
    };
    assert!(rt; read_out_list(bytes) == Ok(want));
}

#[test]
fn lists_of_another_length_are_refused(rt: HostRuntime) {
    let bytes = [0; 32];
    for have in [0, 1, 23, 25, 32] {
        assert!(rt; read_out_list(&bytes[..have]) == Err(ParamFault::Length { have }));
    }
}
