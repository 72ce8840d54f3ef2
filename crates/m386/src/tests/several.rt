//! Two processors in listed orders, which no words of a call name.
use super::sink_failing;
use crate::run::run_image;
use m386_base::list::List;
use m386_book::clean::clean;
use m386_core::order::Order;
use m386_edge::mem_sink::MemSink;
use m386_image::reading::read_image;
use m386_trace::report::report;
use std::alloc::Global;
use std::test::Fail;

/// Two bare processors, 16,384 bytes of memory, and at 1000h MOV EAX, 1; XCHG [2000h], EAX.
const EXCHANGE: [u8; 83] = [
    0x4d, 0x33, 0x38, 0x36, 0x01, 0x00, 0x02, 0x00, 0x00, 0x40, 0x00, 0x00, 0x00, 0x00, 0x00, 0x00,
    0x00, 0x00, 0x00, 0x00, 0x00, 0x00, 0x00, 0x00, 0x00, 0x00, 0x00, 0x00, 0x01, 0x00, 0x00, 0x00,
    0x00, 0x10, 0x00, 0x00, 0x00, 0x10, 0x00, 0x00, 0x00, 0x00, 0x00, 0x00, 0x00, 0x00, 0x00, 0x00,
    0x00, 0x00, 0x00, 0x00, 0x00, 0x00, 0x00, 0x00, 0x00, 0x00, 0x00, 0x00, 0x00, 0x00, 0x00, 0x00,
    0x00, 0x10, 0x00, 0x00, 0x0b, 0x00, 0x00, 0x00, 0xb8, 0x01, 0x00, 0x00, 0x00, 0x87, 0x05, 0x00,
    0x20, 0x00, 0x00,
];

/// The registers that no code here changes, in the line of a processor.
const OTHERS: &str =
    "ecx 00000000 edx 00000000 ebx 00000000 esp 00000000 ebp 00000000 esi 00000000 edi 00000000 es 0010 cs 0008 ss 0010 ds 0010 fs 0010 gs 0010 ldt 0000 tr 0000 cr0 00000001";

/// Adds the lines of two processors that have exchanged, with what they hold in EAX, and a clean verdict.
fn push_exchanged<'t>(text: &mut String, eax_0: &'t str, eax_1: &'t str) -> Result<(), Fail> {
    for (begin, eax) in [("p 0", eax_0), ("p 1", eax_1)] {
        for part in [
            begin,
            " running steps 2 eip 0000100b efl 00000002 eax ",
            eax,
            " ",
            OTHERS,
            " pending none\n",
        ] {
            text.push_str(part)?;
        }
    }
    text.push_str("clean\n")?;
    Ok(())
}

/// The report of a run of two processors that exchange, in the order that these members list.
fn report_in(alloc: Global, members: Vec<u8>) -> Result<MemSink, Fail> {
    let Ok(image) = read_image(alloc, &EXCHANGE) else {
        return Err(Fail::new("no image"));
    };
    if image.cpus < 2 {
        return Err(Fail::new("one processor"));
    }
    let order = Order::List(List::of(members));
    let ended = run_image(alloc, &image, 2, 2, &order)?;
    let Ok(verdict) = clean(alloc, &image, ended.log.cycles()) else {
        return Err(Fail::new("no memory for a verdict"));
    };
    let mut out = sink_failing(alloc, 0)?;
    let written = report(
        &image,
        &ended.log,
        ended.procs.as_slice(),
        &verdict,
        &mut out,
    );
    if written.is_err() {
        return Err(Fail::new("full sink"));
    }
    Ok(out)
}

#[test]
fn listed_orders_give_other_reports(rt: HostRuntime) -> Result<(), Fail> {
    // Who is listed, the cycles, and what the processors end with in EAX.
    let rows: [(u8, [&str; 12], [&str; 2]); 2] = [
        (
            0,
            [
                "c 0 m r . fetch 00 00001000 f 000001b8\n",
                "c 0 m r . fetch 00 00001004 f 00058700\n",
                "c 0 m r . fetch 00 00001004 f 00058700\n",
                "c 0 m r . fetch 00 00001008 f 00000020\n",
                "c 0 m r . data 00 00002000 f 00000000\n",
                "c 0 m w + data 00 00002000 f 00000001\n",
                "c 1 m r . fetch 00 00001000 f 000001b8\n",
                "c 1 m r . fetch 00 00001004 f 00058700\n",
                "c 1 m r . fetch 00 00001004 f 00058700\n",
                "c 1 m r . fetch 00 00001008 f 00000020\n",
                "c 1 m r . data 00 00002000 f 00000001\n",
                "c 1 m w + data 00 00002000 f 00000001\n",
            ],
            ["00000000", "00000001"],
        ),
        (
            1,
            [
                "c 1 m r . fetch 00 00001000 f 000001b8\n",
                "c 1 m r . fetch 00 00001004 f 00058700\n",
                "c 1 m r . fetch 00 00001004 f 00058700\n",
                "c 1 m r . fetch 00 00001008 f 00000020\n",
                "c 1 m r . data 00 00002000 f 00000000\n",
                "c 1 m w + data 00 00002000 f 00000001\n",
                "c 0 m r . fetch 00 00001000 f 000001b8\n",
                "c 0 m r . fetch 00 00001004 f 00058700\n",
                "c 0 m r . fetch 00 00001004 f 00058700\n",
                "c 0 m r . fetch 00 00001008 f 00000020\n",
                "c 0 m r . data 00 00002000 f 00000001\n",
                "c 0 m w + data 00 00002000 f 00000001\n",
            ],
            ["00000001", "00000000"],
        ),
    ];
    for (listed, cycles, [eax_0, eax_1]) in rows {
        let out = report_in(rt.alloc(), vec![in rt.alloc(); listed; 6]?)?;
        let mut want = String::from_str(rt.alloc(), "m386 report 1\nmemory 00004000 cpus 2\n")?;
        for cycle in cycles {
            want.push_str(cycle)?;
        }
        push_exchanged(&mut want, eax_0, eax_1)?;
        assert_eq!(rt; out.bytes(), want.as_bytes(), "listed {listed}");
    }
    Ok(())
}
