// Sources with the code and the offset that each is answered by; 0 for one that is taken.
#![tactic(auto)]

use source::reading::read;
use std::alloc::Global;

// The code and the offset that a source is answered by, as numbers: so the tests name them.
pub fn answer(heap: Global, text: &[u8]) -> (u8, usize) {
    match read(heap, text) {
        Ok(_) => (0, 0),
        Err(fault) => {
            let answer = fault.answer();
            (u8::from(answer.code), answer.offset)
        }
    }
}

#[cfg(test)]
mod tests {
    use crate::answer;
    use std::process::Abort;

    fn is(rt: &impl Abort, heap: std::alloc::Global, text: &[u8], code: u8, offset: usize) {
        let (found, at) = answer(heap, text);
        assert_eq!(rt; found, code);
        assert_eq!(rt; at, offset);
    }

    #[test]
    fn examples(rt: HostRuntime) {
        let heap = rt.alloc();
        is(&rt, heap, b"", 9, 0);
        is(&rt, heap, b"header h { f 8; }", 9, 17);
        is(&rt, heap, b"header h { f 8; ", 2, 16);
        is(&rt, heap, b"header 4294967296 { }", 2, 7);
        is(&rt, heap, b"header h { f 0X8; }", 2, 13);
        is(&rt, heap, b"header h { f 8; f 8; }", 3, 16);
        is(&rt, heap, b"header h { out 8; }", 3, 11);
        is(&rt, heap, b"header a_b { f 8; }", 2, 8);
        is(&rt, heap, b"first h;", 3, 6);
        is(&rt, heap, b"do { } do { }", 2, 7);
        is(&rt, heap, b"do { set g 1; }", 3, 9);
        is(&rt, heap, b"do { set out 1; }", 2, 13);
        is(
            &rt,
            heap,
            b"header h { f 8; } header k { f 8; } do { set f = 1; }",
            3,
            45,
        );
    }

    #[test]
    fn choices(rt: HostRuntime) {
        let heap = rt.alloc();
        is(&rt, heap, b"header h { f 8; } after h by out { }", 3, 29);
        is(
            &rt,
            heap,
            b"header h { f 8; } after h by f { 1 : h; }",
            3,
            37,
        );
        is(
            &rt,
            heap,
            b"header h { f 8; } after h by f { 1 : k; }",
            3,
            37,
        );
        is(
            &rt,
            heap,
            b"header h { f 8; } after h by f { 1 : k; } $",
            2,
            42,
        );
        is(
            &rt,
            heap,
            b"header h { f 8; } after h by f { } after h by f { }",
            3,
            41,
        );
        is(
            &rt,
            heap,
            b"header h { f 8; } after h by h.f { 1 : k; 2 : end; } header k { f 8; } first h; do { }",
            0,
            0,
        );
        is(
            &rt,
            heap,
            b"header h { f 8; } header k { f 8; } after k by f { 1 : h; }",
            3,
            55,
        );
        is(
            &rt,
            heap,
            b"header h { f 8; } header k { f 8; } after k by h.f { }",
            3,
            47,
        );
        is(
            &rt,
            heap,
            b"header h { f 8; } after h by f { 1 : abcdefghijklmnopqrstuvwxy; } first h; do { }",
            3,
            37,
        );
        is(
            &rt,
            heap,
            b"header h{f 8;}after h by f{1:end;2:end;3:end;4:end;5:end;6:end;7:end;8:end;}first h;do{}",
            0,
            0,
        );
        is(
            &rt,
            heap,
            b"header h{f 8;}after h by f{1:end;2:end;3:end;4:end;5:end;6:end;7:end;8:end;9:end;}",
            9,
            75,
        );
        is(
            &rt,
            heap,
            b"header h{f 8;}after h by f{1:end;2:end;3:end;4:end;5:end;6:end;7:end;8:end;4294967296:end;}",
            4,
            75,
        );
    }

    #[test]
    fn tables(rt: HostRuntime) {
        let heap = rt.alloc();
        is(&rt, heap, b"table t { look; sets; lines 257; }", 4, 28);
        is(&rt, heap, b"table t { look; sets; lines 256; }", 9, 34);
        is(&rt, heap, b"table t { look; sets; lines 0; }", 4, 28);
        is(
            &rt,
            heap,
            b"table t { look out, out, out, out, out; sets; lines 1; }",
            9,
            35,
        );
        is(
            &rt,
            heap,
            b"table t { look out, out, out, out, x; sets; lines 1; }",
            3,
            35,
        );
        is(
            &rt,
            heap,
            b"table t { look out, out, out, out; sets; lines 1; }",
            9,
            51,
        );
        is(
            &rt,
            heap,
            b"table t { look; sets out,out,out,out,out,out,out,out,out; lines 1; }",
            9,
            53,
        );
        is(
            &rt,
            heap,
            b"table t { look; sets out,out,out,out,out,out,out,out; lines 1; }",
            9,
            64,
        );
        is(
            &rt,
            heap,
            b"header h{x 8;}table t{look h.x,h.x,h.x,h.x,h.y;",
            9,
            43,
        );
        is(
            &rt,
            heap,
            b"table t { look; sets; lines 1; } table t",
            3,
            39,
        );
        is(
            &rt,
            heap,
            b"table t { look; sets; lines 1; } do { if out == 1 { apply t; } apply t; }",
            8,
            69,
        );
        is(
            &rt,
            heap,
            b"table t { look; sets; lines 1; } do { if out == 1 { apply t; } else { apply t; } } $",
            2,
            83,
        );
        is(
            &rt,
            heap,
            b"table t { look; sets; lines 1; } do { if out == 1 { } else { apply t; } apply t; }",
            8,
            78,
        );
        is(&rt, heap, b"do { apply t; }", 3, 11);
    }

    #[test]
    fn limits(rt: HostRuntime) {
        let heap = rt.alloc();
        is(&rt, heap, b"header h { f 33; }", 4, 13);
        is(&rt, heap, b"header h { f 0; }", 4, 13);
        is(&rt, heap, b"header h { f 32; }", 9, 18);
        is(&rt, heap, b"header h { f 4294967296; }", 4, 13);
        is(&rt, heap, b"header h { }", 5, 11);
        is(&rt, heap, b"header h { f 7; }", 5, 16);
        is(
            &rt,
            heap,
            b"header h{a 32;b 32;c 32;d 32;e 32;f 32;g 32;h 32;}",
            9,
            50,
        );
        is(
            &rt,
            heap,
            b"header h{a 32;b 32;c 32;d 32;e 32;f 32;g 32;h 32;i 8;}",
            5,
            53,
        );
        is(&rt, heap, b"header abcdefghijklmnopqrstuvwx { }", 5, 34);
        is(&rt, heap, b"header abcdefghijklmnopqrstuvwxy { }", 4, 7);
        is(&rt, heap, b"header h { f 8; } header h", 3, 25);
        is(
            &rt,
            heap,
            b"header a{x 8;}header b{x 8;}header c{x 8;}header d{x 8;}header e{x 8;}header f{x 8;}header g{x 8;}header h{x 8;}",
            9,
            112,
        );
        is(
            &rt,
            heap,
            b"header a{x 8;}header b{x 8;}header c{x 8;}header d{x 8;}header e{x 8;}header f{x 8;}header g{x 8;}header h{x 8;}header i",
            9,
            119,
        );
        is(&rt, heap, b"header h { f 8; } first h; first h;", 2, 27);
    }

    #[test]
    fn many(rt: HostRuntime) {
        let heap = rt.alloc();
        is(
            &rt,
            heap,
            b"header a{a0 8;a1 8;a2 8;a3 8;a4 8;a5 8;a6 8;a7 8;a8 8;a9 8;a10 8;a11 8;a12 8;a13 8;a14 8;a15 8;a16 8;a17 8;a18 8;a19 8;a20 8;a21 8;a22 8;a23 8;a24 8;a25 8;a26 8;a27 8;a28 8;a29 8;a30 8;a31 8;}header b{b0 8;b1 8;b2 8;b3 8;b4 8;b5 8;b6 8;b7 8;b8 8;b9 8;b10 8;b11 8;b12 8;b13 8;b14 8;b15 8;b16 8;b17 8;b18 8;b19 8;b20 8;b21 8;b22 8;b23 8;b24 8;b25 8;b26 8;b27 8;b28 8;b29 8;b30 8;}",
            9,
            378,
        );
        is(
            &rt,
            heap,
            b"header a{a0 8;a1 8;a2 8;a3 8;a4 8;a5 8;a6 8;a7 8;a8 8;a9 8;a10 8;a11 8;a12 8;a13 8;a14 8;a15 8;a16 8;a17 8;a18 8;a19 8;a20 8;a21 8;a22 8;a23 8;a24 8;a25 8;a26 8;a27 8;a28 8;a29 8;a30 8;a31 8;}header b{b0 8;b1 8;b2 8;b3 8;b4 8;b5 8;b6 8;b7 8;b8 8;b9 8;b10 8;b11 8;b12 8;b13 8;b14 8;b15 8;b16 8;b17 8;b18 8;b19 8;b20 8;b21 8;b22 8;b23 8;b24 8;b25 8;b26 8;b27 8;b28 8;b29 8;b30 8;z",
            9,
            377,
        );
        is(
            &rt,
            heap,
            b"header a{a0 8;a1 8;a2 8;a3 8;a4 8;a5 8;a6 8;a7 8;a8 8;a9 8;a10 8;a11 8;a12 8;a13 8;a14 8;a15 8;a16 8;a17 8;a18 8;a19 8;a20 8;a21 8;a22 8;a23 8;a24 8;a25 8;a26 8;a27 8;a28 8;a29 8;a30 8;a31 8;}header b{b0 8;b1 8;b2 8;b3 8;b4 8;b5 8;b6 8;b7 8;b8 8;b9 8;b10 8;b11 8;b12 8;b13 8;b14 8;b15 8;b16 8;b17 8;b18 8;b19 8;b20 8;b21 8;b22 8;b23 8;b24 8;b25 8;b26 8;b27 8;b28 8;b29 8;b30 8;b0",
            3,
            377,
        );
        is(
            &rt,
            heap,
            b"header a{a0 8;a1 8;a2 8;a3 8;a4 8;a5 8;a6 8;a7 8;a8 8;a9 8;a10 8;a11 8;a12 8;a13 8;a14 8;a15 8;a16 8;a17 8;a18 8;a19 8;a20 8;a21 8;a22 8;a23 8;a24 8;a25 8;a26 8;a27 8;a28 8;a29 8;a30 8;a31 8;}header b{b0 8;b1 8;b2 8;b3 8;b4 8;b5 8;b6 8;b7 8;b8 8;b9 8;b10 8;b11 8;b12 8;b13 8;b14 8;b15 8;b16 8;b17 8;b18 8;b19 8;b20 8;b21 8;b22 8;b23 8;b24 8;b25 8;b26 8;b27 8;b28 8;b29 8;b30 8;abcdefghijklmnopqrstuvwxy",
            4,
            377,
        );
        is(
            &rt,
            heap,
            b"table t0{look;sets;lines 1;}table t1{look;sets;lines 1;}table t2{look;sets;lines 1;}table t3{look;sets;lines 1;}table t4{look;sets;lines 1;}table t5{look;sets;lines 1;}table t6{look;sets;lines 1;}table t7{look;sets;lines 1;}table t8{look;sets;lines 1;}table t9{look;sets;lines 1;}table t10{look;sets;lines 1;}table t11{look;sets;lines 1;}table t12{look;sets;lines 1;}table t13{look;sets;lines 1;}table t14{look;sets;lines 1;}table t15{look;sets;lines 1;}table t16{look;sets;lines 1;}table t17{look;sets;lines 1;}table t18{look;sets;lines 1;}table t19{look;sets;lines 1;}table t20{look;sets;lines 1;}table t21{look;sets;lines 1;}table t22{look;sets;lines 1;}table t23{look;sets;lines 1;}table t24{look;sets;lines 1;}table t25{look;sets;lines 1;}table t26{look;sets;lines 1;}table t27{look;sets;lines 1;}table t28{look;sets;lines 1;}table t29{look;sets;lines 1;}table t30{look;sets;lines 1;}table t31{look;sets;lines 1;}",
            9,
            918,
        );
        is(
            &rt,
            heap,
            b"table t0{look;sets;lines 1;}table t1{look;sets;lines 1;}table t2{look;sets;lines 1;}table t3{look;sets;lines 1;}table t4{look;sets;lines 1;}table t5{look;sets;lines 1;}table t6{look;sets;lines 1;}table t7{look;sets;lines 1;}table t8{look;sets;lines 1;}table t9{look;sets;lines 1;}table t10{look;sets;lines 1;}table t11{look;sets;lines 1;}table t12{look;sets;lines 1;}table t13{look;sets;lines 1;}table t14{look;sets;lines 1;}table t15{look;sets;lines 1;}table t16{look;sets;lines 1;}table t17{look;sets;lines 1;}table t18{look;sets;lines 1;}table t19{look;sets;lines 1;}table t20{look;sets;lines 1;}table t21{look;sets;lines 1;}table t22{look;sets;lines 1;}table t23{look;sets;lines 1;}table t24{look;sets;lines 1;}table t25{look;sets;lines 1;}table t26{look;sets;lines 1;}table t27{look;sets;lines 1;}table t28{look;sets;lines 1;}table t29{look;sets;lines 1;}table t30{look;sets;lines 1;}table t31{look;sets;lines 1;}table u",
            9,
            924,
        );
    }

    #[test]
    fn blocks(rt: HostRuntime) {
        let heap = rt.alloc();
        is(
            &rt,
            heap,
            b"do{if out<1{if out<1{if out<1{if out<1{if out<1{if out<1{if out<1{}}}}}}}}",
            9,
            74,
        );
        is(
            &rt,
            heap,
            b"do{if out<1{if out<1{if out<1{if out<1{if out<1{if out<1{if out<1{if out<1{",
            7,
            74,
        );
        is(&rt, heap, b"do { } }", 2, 7);
        is(&rt, heap, b"do { else { } }", 2, 5);
        is(&rt, heap, b"do { set out = 4294967296; }", 4, 15);
        is(
            &rt,
            heap,
            b"do { set out = out; add out = 0xfF; if out < out { } else { } }",
            9,
            63,
        );
        is(&rt, heap, b"do { if out = 1 { } }", 2, 12);
    }

    #[test]
    fn taken(rt: HostRuntime) {
        let heap = rt.alloc();
        is(
            &rt,
            heap,
            b"// Forwards by station.\r\nheader link { to 16; kind 8; } header hop { left 8; from 16; }\nfirst link; after link by kind { 1 : hop; }\ttable ports { look to; sets out; lines 64; } do { apply ports; if kind == 1 { if left == 0 { set out = 0; } else { add left = 0xff; } } } // end",
            0,
            0,
        );
        is(
            &rt,
            heap,
            b"header header{set 8;}first header;after header by set{}table lines{look set;sets set;lines 1;}do{apply lines;if header . set==1{}}",
            0,
            0,
        );
    }
}
