//! Whole descriptions, each with its fields or its refusal.

use crate::mapped::mapped;
use prove_top::Status;
use std::alloc::{AllocError, Global};
use std::test::Fail;
use std::vec::Vec;

/// Descriptions, each with what is put for it in the line behind; `|` stands for a line feed.
const CASES: &[u8] = b"\
addrmap a { reg { regwidth=8; field { sw=rw; hw=r; } v[8]=0; } c; };\n\
00000000 c.v [7:0] RW 00|\n\
addrmap a { reg { regwidth=8; field { sw=rw; hw=r; onwrite=wclr; onread=rclr; } v[8]=0; } c; };\n\
00000000 c.v [7:0] - 00|\n\
addrmap a { reg { regwidth=8; field {} a; } c; };\n\
00000000 c.a [0:0] RW -|\n\
addrmap a { reg { regwidth=8; field {} a[3:0]=0; field {} b[4:3]=0; } c; };\n\
refused 107 a.rdl:1:59 RdlPlace|\n\
addrmap a { q c; };\n\
refused 104 a.rdl:1:13 RdlName|\n\
addrmap a { foo = 1; reg { field {} f=0; } c; };\n\
refused 105 a.rdl:1:13 RdlProperty|\n\
addrmap a { reg {\n\
refused 102 a.rdl:1:18 RdlSyntax|\n\
addrmap a { ~\n\
refused 101 a.rdl:1:13 RdlByte|\n\
\n\
refused 104 a.rdl:1:1 RdlName|\n\
addrmap a { reg { field {} f[2] = 4; } c; };\n\
refused 106 a.rdl:1:28 RdlValue|\n\
addrmap a { reg { field {} f = 0; } c[1025]; };\n\
refused 108 a.rdl:0:0 RdlSize|\n\
addrmap a { reg { field {} lo[12]=12'hABC; field { sw=w; singlepulse; } go=0; } r[2] @ 0x10; };\n\
00000010 r[0].lo [11:0] RW abc|00000010 r[0].go [12:12] WO 0|00000014 r[1].lo [11:0] RW abc|00000014 r[1].go [12:12] WO 0|\n\
addrmap a { reg { regwidth=64; accesswidth=32; field {} lo[32]=1; field {} hi[32]=2; } w; };\n\
00000000 w.lo [31:0] RW 00000001|00000004 w.hi [31:0] RW 00000002|\n\
default sw=r; default reset=1; addrmap a { reg { field {} f; } c; };\n\
00000000 c.f [0:0] RO 1|\n\
default sw=r; addrmap a { reg { field {} e=0; } b; default sw=w; reg { field {} f=0; } c; };\n\
00000000 b.e [0:0] RO 0|00000004 c.f [0:0] WO 0|\n\
addrmap a { default sw=w; default reset=3; default fieldwidth=2; reg { default reset=1; field { sw=r; } f; field { reset=2; } g; } c; };\n\
00000000 c.f [1:0] RO 1|00000000 c.g [3:2] WO 2|\n\
addrmap a { reg { field { sw=r; } f=0; f->sw=w; } c; reg { field { sw=r; } f=0; f->sw=w; } d; d.f->sw=w1; };\n\
00000000 c.f [0:0] WO 0|00000004 d.f [0:0] WO1 0|\n\
addrmap a { regfile { reg { field {} f[4]=1; } c; c.f->reset=2; } x, y; y.c.f->reset=3; };\n\
00000000 x.c.f [3:0] RW 2|00000004 y.c.f [3:0] RW 3|\n\
reg q { field {} f; }; addrmap a { default sw=r; q c; };\n\
00000000 c.f [0:0] RW -|\n\
reg q { field {} f=5; field {} g; f->fieldwidth=3; }; addrmap a { q c[2]; c[1].f->onwrite=wot; c[1].g->reset=1; };\n\
00000000 c[0].f [2:0] RW 5|00000000 c[0].g [3:3] RW -|00000004 c[1].f [2:0] W1T 5|00000004 c[1].g [3:3] RW 1|\n\
addrmap a { default onread=rclr; reg { field { rclr=false; } f; field { rset; } g; field {} h; } c; };\n\
00000000 c.f [0:0] RW -|00000000 c.g [1:1] WRS -|00000000 c.h [2:2] WRC -|\n\
addrmap a { default woclr; reg { field { woset=false; } f; field { onwrite=wzs; } g; field { sw=r; } h=0; } c; };\n\
00000000 c.f [0:0] RW -|00000000 c.g [1:1] W0S -|00000000 c.h [2:2] RO 0|\n\
addrmap a { default reset=0; reg { field { woclr; rset; } a; field { woset; rclr; } b; field { onwrite=wzc; rset; } c; field { onwrite=wzs; rclr; } d; } c; };\n\
00000000 c.a [0:0] W1CRS 0|00000000 c.b [1:1] W1SRC 0|00000000 c.c [2:2] W0CRS 0|00000000 c.d [3:3] W0SRC 0|\n\
addrmap a { default reset=0; reg { field { onwrite=wset; rclr; } a; field { onwrite=wclr; rset; } b; field { sw=w; onwrite=wclr; rset; } c; field { sw=w; onwrite=wset; } d; } c; };\n\
00000000 c.a [0:0] WSRC 0|00000000 c.b [1:1] WCRS 0|00000000 c.c [2:2] WOC 0|00000000 c.d [3:3] WOS 0|\n\
addrmap a { default reset=0; reg { field { sw=r; rclr; woclr; } a; field { sw=r; rset; } b; field { sw=w; onwrite=wot; } c; field { sw=na; rclr; woset; } d; } c; };\n\
00000000 c.a [0:0] RC 0|00000000 c.b [1:1] RS 0|00000000 c.c [2:2] - 0|00000000 c.d [3:3] - 0|\n\
addrmap a { reg { field { sw=r; hw=w; } f[8]; field { sw=r; hw=w; hwset; } g[4]=9; field { sw=r; hw=w; we; } h; } c; };\n\
00000000 c.f [7:0] RO 00|00000000 c.g [11:8] RO 9|00000000 c.h [12:12] RO -|\n\
addrmap a { reg { regwidth=16; field {} f; } c @ 6, d; reg { regwidth=32; accesswidth=16; field {} g; } e; };\n\
00000006 c.f [0:0] RW -|00000008 d.f [0:0] RW -|0000000c e.g [0:0] RW -|\n\
addrmap a { reg { field {} f; } c, d %= 16, e[2] @ 64 += 12, g[2] %= 32; };\n\
00000000 c.f [0:0] RW -|00000010 d.f [0:0] RW -|00000040 e[0].f [0:0] RW -|0000004c e[1].f [0:0] RW -|00000060 g[0].f [0:0] RW -|00000064 g[1].f [0:0] RW -|\n\
addrmap a { reg { field {} f; } c; regfile { reg { field {} f; } x, y, z; } r, s; reg { field {} f; } d; };\n\
00000000 c.f [0:0] RW -|00000010 r.x.f [0:0] RW -|00000014 r.y.f [0:0] RW -|00000018 r.z.f [0:0] RW -|00000020 s.x.f [0:0] RW -|00000024 s.y.f [0:0] RW -|00000028 s.z.f [0:0] RW -|0000002c d.f [0:0] RW -|\n\
addrmap a { regfile { reg { field {} f; } x @ 4; regfile { reg { field {} g; } y[2]; } t[2]; } r[2] @ 16 += 32; };\n\
00000014 r[0].x.f [0:0] RW -|00000018 r[0].t[0].y[0].g [0:0] RW -|0000001c r[0].t[0].y[1].g [0:0] RW -|00000020 r[0].t[1].y[0].g [0:0] RW -|00000024 r[0].t[1].y[1].g [0:0] RW -|00000034 r[1].x.f [0:0] RW -|00000038 r[1].t[0].y[0].g [0:0] RW -|0000003c r[1].t[0].y[1].g [0:0] RW -|00000040 r[1].t[1].y[0].g [0:0] RW -|00000044 r[1].t[1].y[1].g [0:0] RW -|\n\
addrmap b { reg { field {} f; } c @ 8; }; addrmap a { reg { field {} e; } d; b x[2]; };\n\
00000000 d.e [0:0] RW -|00000018 x[0].c.f [0:0] RW -|00000024 x[1].c.f [0:0] RW -|\n\
addrmap a { reg { regwidth=64; accesswidth=16; field {} a[15:0]; field {} b[63:48]; field {} c[20:17]; } w @ 8; };\n\
00000008 w.a [15:0] RW -|0000000a w.c [4:1] RW -|0000000e w.b [15:0] RW -|\n\
addrmap a { reg { field {} f; } late @ 8, early @ 4; reg { field {} h[31:31]=1; field {} g[15:8]=8'hC3; field {} k[2]; } first @ 0; };\n\
00000000 first.g [15:8] RW c3|00000000 first.k [17:16] RW -|00000000 first.h [31:31] RW 1|00000004 early.f [0:0] RW -|00000008 late.f [0:0] RW -|\n\
addrmap a { reg { field {} h[7:7]=1; field {} g; field { fieldwidth=3; } k, m=7; } c; };\n\
00000000 c.h [7:7] RW 1|00000000 c.g [8:8] RW -|00000000 c.k [11:9] RW -|00000000 c.m [14:12] RW 7|\n\
reg q { field {} f=0; }; addrmap a { q x; reg q { field {} g=1; }; q y; regfile { q z; reg q { field {} h=0; }; q w; } r; q v; };\n\
00000000 x.f [0:0] RW 0|00000004 y.g [0:0] RW 1|00000008 r.z.g [0:0] RW 1|0000000c r.w.h [0:0] RW 0|00000010 v.g [0:0] RW 1|\n\
field q { sw=r; }; addrmap a { reg q { q f=0; q g[3]=5; }; q c; };\n\
00000000 c.f [0:0] RO 0|00000000 c.g [3:1] RO 5|\n\
addrmap a { reg { field {} f; } c; }; addrmap b { reg { field {} g; } d; };\n\
00000000 d.g [0:0] RW -|\n\
addrmap b { addrmap a { reg { field {} f; } c; } x; name = \"b\"; }; regfile z { reg { field {} f; } c; };\n\
00000000 x.c.f [0:0] RW -|\n\
enum e { off = 0; on = 1 { name = \"on\"; desc = \"it's on\"; }; }; addrmap a { enum e { x; y; }; reg { enum e { z; }; field { encode = e; } f = 0; } c; };\n\
00000000 c.f [0:0] RW 0|\n\
addrmap a { reg { field { counter; sw=r; incrvalue=3; decrvalue=2; decr; overflow; underflow; } n[2]=1; field { counter; incrsaturate; decrsaturate; } m[4]=0; n->incr=m->ored; } c; };\n\
00000000 c.n [1:0] RO 1|00000000 c.m [5:2] RW 0|\n\
addrmap a { reg { default reset=0; field { intr; woclr; } i[2]; field {} e[2]; field { intr; sticky; } j; field { intr; stickybit; } k; i->enable=e; j->mask=k; } c; };\n\
00000000 c.i [1:0] W1C 0|00000000 c.e [3:2] RW 0|00000000 c.j [4:4] RW 0|00000000 c.k [5:5] RW 0|\n\
addrmap a { reg { field { hwset; hwclr; swmod; swacc; } f[4]=0; field { anded; ored; xored; } g=1; f->swwel=g; f->hwenable=k; field {} k[4]=0; } c; };\n\
00000000 c.f [3:0] RW 0|00000000 c.g [4:4] RW 1|00000000 c.k [8:5] RW 0|\n\
addrmap a { reg { field {} f; } c[1025]; };\n\
refused 108 a.rdl:0:0 RdlSize|\n\
addrmap a { reg { regwidth=128; accesswidth=32; field {} f; } c[257]; };\n\
refused 108 a.rdl:0:0 RdlSize|\n\
addrmap a { reg { field {} f[32]; } c[128]; reg { field {} g; } d; };\n\
refused 108 a.rdl:0:0 RdlSize|\n\
reg q { field {} f; };\n\
refused 104 a.rdl:1:23 RdlName|\n\
addrmap a { reg { field {} f; } c; reg { field {} f; } d, c; };\n\
refused 104 a.rdl:1:59 RdlName|\n\
reg q { field {} f; }; regfile q { reg { field {} f; } c; }; addrmap a { q c; };\n\
refused 104 a.rdl:1:24 RdlName|\n\
addrmap a { enum q { x; }; q c; };\n\
refused 104 a.rdl:1:28 RdlName|\n\
addrmap a { reg q { q f; }; };\n\
refused 104 a.rdl:1:21 RdlName|\n\
addrmap a { field {} f; };\n\
refused 104 a.rdl:1:13 RdlName|\n\
addrmap a { regfile { addrmap { reg { field {} f; } c; } b; } r; };\n\
refused 104 a.rdl:1:23 RdlName|\n\
addrmap a { reg { regfile { reg { field {} f; } c; } r; } d; };\n\
refused 104 a.rdl:1:19 RdlName|\n\
addrmap a { reg { field { field {} g; } f; } c; };\n\
refused 104 a.rdl:1:27 RdlName|\n\
addrmap a { reg { field {} f; } c[2]; c.f->sw=r; };\n\
refused 104 a.rdl:1:39 RdlName|\n\
addrmap a { reg { field {} f; } c[2]; c[2].f->sw=r; };\n\
refused 104 a.rdl:1:39 RdlName|\n\
addrmap a { reg { field {} f; } c; c->sw=r; };\n\
refused 104 a.rdl:1:36 RdlName|\n\
addrmap a { reg { field {} f; } c; c.f->regwidth=32; };\n\
refused 104 a.rdl:1:36 RdlName|\n\
addrmap a { reg { field {} f=0; } c; c.f->we=c; };\n\
refused 104 a.rdl:1:38 RdlName|\n\
addrmap a { reg { field {} f=0; } c; c.f->hwset=c.g->ored; };\n\
refused 104 a.rdl:1:38 RdlName|\n\
addrmap { reg { field {} f; } c; } a;\n\
refused 104 a.rdl:1:1 RdlName|\n\
sw = r; addrmap a { reg { field {} f; } c; };\n\
refused 104 a.rdl:1:1 RdlName|\n\
addrmap a { reg { field { sw=r; sw=r; } f; } c; };\n\
refused 105 a.rdl:1:33 RdlProperty|\n\
addrmap a { reg { field { onwrite=wot; woclr=false; } f; } c; };\n\
refused 105 a.rdl:1:40 RdlProperty|\n\
addrmap a { reg { field { reset=0; } f =0; } c; };\n\
refused 105 a.rdl:1:40 RdlProperty|\n\
addrmap a { default sw=r; default sw=w; reg { field {} f; } c; };\n\
refused 105 a.rdl:1:27 RdlProperty|\n\
addrmap a { reg { field {} f; } c[2]; c[0].f->sw=r; c[1].f->sw=r; c[0].f->sw=w; };\n\
refused 105 a.rdl:1:67 RdlProperty|\n\
addrmap a { reg { field {} f; } c; c.f->foo; };\n\
refused 105 a.rdl:1:36 RdlProperty|\n\
addrmap a { default foo; reg { field {} f; } c; };\n\
refused 105 a.rdl:1:13 RdlProperty|\n\
addrmap a { enum e { x { name = \"x\"; sw = r; }; }; reg { field {} f; } c; };\n\
refused 105 a.rdl:1:38 RdlProperty|\n\
addrmap a { default wel; reg { field { we; } f; } c; };\n\
refused 105 a.rdl:1:46 RdlProperty|\n\
addrmap a { reg { field { swwe; } f; f->swwel; } c; };\n\
refused 105 a.rdl:1:35 RdlProperty|\n\
addrmap a { reg { field {} f=0; field {} g=0; f->hwenable=g; f->hwmask=g; } c; };\n\
refused 105 a.rdl:1:28 RdlProperty|\n\
addrmap a { reg { field { intr; } f=0; field {} g=0; f->enable=g; f->mask=g; } c; };\n\
refused 105 a.rdl:1:35 RdlProperty|\n\
addrmap a { reg { field { intr; sticky; stickybit; } f=0; } c; };\n\
refused 105 a.rdl:1:54 RdlProperty|\n\
addrmap a { reg { field {} f; } c @ 4 %= 8; };\n\
refused 106 a.rdl:1:33 RdlValue|\n\
addrmap a { reg { field {} f @ 4; } c; };\n\
refused 106 a.rdl:1:28 RdlValue|\n\
addrmap a { reg { field {} f[2] += 4; } c; };\n\
refused 106 a.rdl:1:28 RdlValue|\n\
addrmap a { reg { field {} f %= 4; } c; };\n\
refused 106 a.rdl:1:28 RdlValue|\n\
addrmap a { regfile { reg { field {} f; } c; } r[3:0]; };\n\
refused 106 a.rdl:1:48 RdlValue|\n\
addrmap a { reg { field {} f[3:4]; } c; };\n\
refused 106 a.rdl:1:28 RdlValue|\n\
addrmap a { reg { field {} f; } c += 4; };\n\
refused 106 a.rdl:1:33 RdlValue|\n\
addrmap a { reg { field {} f; } c[0]; };\n\
refused 106 a.rdl:1:33 RdlValue|\n\
addrmap a { reg { field {} f[0]; } c; };\n\
refused 106 a.rdl:1:28 RdlValue|\n\
addrmap a { reg { field {} f; } c[2] += 0; };\n\
refused 106 a.rdl:1:33 RdlValue|\n\
addrmap a { reg { field {} f; } c %= 0; };\n\
refused 106 a.rdl:1:33 RdlValue|\n\
addrmap a { reg { field { fieldwidth=3; } f[4]; } c; };\n\
refused 106 a.rdl:1:43 RdlValue|\n\
addrmap a { reg { field {} f; } c; reg { accesswidth=16; field {} f; } d; };\n\
refused 106 a.rdl:1:72 RdlValue|\n\
addrmap a { reg { regwidth=16; accesswidth=32; field {} f; } c; };\n\
refused 106 a.rdl:1:62 RdlValue|\n\
addrmap a { default sw=1; reg { field {} f; } c; };\n\
refused 106 a.rdl:1:13 RdlValue|\n\
addrmap a { reg { field {} f=0; field {} g[2]=0; f->we=g; } c; };\n\
refused 106 a.rdl:1:50 RdlValue|\n\
addrmap a { reg { field {} f=0; field {} g; f->hwclr=g; } c; };\n\
refused 106 a.rdl:1:45 RdlValue|\n\
addrmap a { reg { field {} f=0; field {} g[2]=0; f->hwmask=g; } c; };\n\
refused 106 a.rdl:1:50 RdlValue|\n\
addrmap a { reg { field {} f=0; field {} g=0; f->we=g->swmod; } c; };\n\
refused 106 a.rdl:1:47 RdlValue|\n\
addrmap a { reg { field { singlepulse; reset=1; } f; } c; };\n\
refused 106 a.rdl:1:51 RdlValue|\n\
addrmap a { reg { field { singlepulse; fieldwidth=2; } f; } c; };\n\
refused 106 a.rdl:1:56 RdlValue|\n\
addrmap a { reg { field { singlepulse; sw=r; } f; } c; };\n\
refused 106 a.rdl:1:48 RdlValue|\n\
addrmap a { reg { field { singlepulse; sw=rw1; } f; } c; };\n\
refused 106 a.rdl:1:50 RdlValue|\n\
addrmap a { reg { field { singlepulse; hw=w; } f; } c; };\n\
refused 106 a.rdl:1:48 RdlValue|\n\
addrmap a { reg { field { singlepulse; we; } f; } c; };\n\
refused 106 a.rdl:1:46 RdlValue|\n\
addrmap a { reg { field { singlepulse; hwset; } f; } c; };\n\
refused 106 a.rdl:1:49 RdlValue|\n\
addrmap a { reg { field { singlepulse; hwclr; } f; } c; };\n\
refused 106 a.rdl:1:49 RdlValue|\n\
addrmap a { reg { field { singlepulse; rclr; } f; } c; };\n\
refused 106 a.rdl:1:48 RdlValue|\n\
addrmap a { reg { field { counter; intr; reset=0; } f; } c; };\n\
refused 106 a.rdl:1:53 RdlValue|\n\
addrmap a { reg { field { counter; hw=w; reset=0; } f; } c; };\n\
refused 106 a.rdl:1:53 RdlValue|\n\
addrmap a { reg { field { counter; we=true; reset=0; hw=r; } f; } c; };\n\
refused 106 a.rdl:1:62 RdlValue|\n\
addrmap a { reg { field { counter; wel; hw=r; reset=0; } f; } c; };\n\
refused 106 a.rdl:1:58 RdlValue|\n\
addrmap a { reg { field { counter; singlepulse; reset=0; } f; } c; };\n\
refused 106 a.rdl:1:60 RdlValue|\n\
addrmap a { reg { field { counter;  } f; } c; };\n\
refused 106 a.rdl:1:39 RdlValue|\n\
addrmap a { reg { field { counter; } f=0; field {} g=0; f->hwmask=g; } c; };\n\
refused 106 a.rdl:1:38 RdlValue|\n\
addrmap a { reg { field { counter; incrvalue=4; } f[2]=0; } c; };\n\
refused 106 a.rdl:1:51 RdlValue|\n\
addrmap a { reg { field { incr; } f=0; } c; };\n\
refused 106 a.rdl:1:35 RdlValue|\n\
addrmap a { reg { field { decrsaturate; } f=0; } c; };\n\
refused 106 a.rdl:1:43 RdlValue|\n\
addrmap a { reg { field { overflow; } f=0; } c; };\n\
refused 106 a.rdl:1:39 RdlValue|\n\
addrmap a { reg { field { incrvalue=1; } f=0; } c; };\n\
refused 106 a.rdl:1:42 RdlValue|\n\
addrmap a { reg { field { intr; hw=r; reset=0; } f; } c; };\n\
refused 106 a.rdl:1:50 RdlValue|\n\
addrmap a { reg { field { intr; hw=na; reset=0; } f; } c; };\n\
refused 106 a.rdl:1:51 RdlValue|\n\
addrmap a { reg { field { intr;  } f; } c; };\n\
refused 106 a.rdl:1:36 RdlValue|\n\
addrmap a { reg { field { intr; we; reset=0; } f; } c; };\n\
refused 106 a.rdl:1:48 RdlValue|\n\
addrmap a { reg { field { intr; wel; reset=0; } f; } c; };\n\
refused 106 a.rdl:1:49 RdlValue|\n\
addrmap a { reg { field { intr; hwset; reset=0; } f; } c; };\n\
refused 106 a.rdl:1:51 RdlValue|\n\
addrmap a { reg { field { intr; hwclr; reset=0; } f; } c; };\n\
refused 106 a.rdl:1:51 RdlValue|\n\
addrmap a { reg { field { intr; singlepulse; reset=0; } f; } c; };\n\
refused 106 a.rdl:1:57 RdlValue|\n\
addrmap a { reg { field { sticky; } f=0; } c; };\n\
refused 106 a.rdl:1:37 RdlValue|\n\
addrmap a { reg { field {} f=0; field {} g=0; f->enable=g; } c; };\n\
refused 106 a.rdl:1:28 RdlValue|\n\
addrmap a { reg { field {} f; } c @ 4, d @ 4; };\n\
refused 107 a.rdl:1:40 RdlPlace|\n\
addrmap a { reg { field {} f; } c[4]; reg { field {} f; } d @ 12; reg { field {} f; } e @ 8; };\n\
refused 107 a.rdl:1:59 RdlPlace|\n\
addrmap a { reg { field {} f[32:32]; } c; };\n\
refused 107 a.rdl:1:28 RdlPlace|\n\
addrmap a { reg { regwidth=64; field {} f[32:31]; } c; };\n\
refused 107 a.rdl:1:41 RdlPlace|\n\
addrmap a { reg { field {} f; } c @ 2; };\n\
refused 107 a.rdl:1:33 RdlPlace|\n\
addrmap a { reg { field {} f; } c @ 0x100000000; };\n\
refused 107 a.rdl:1:33 RdlPlace|\n\
addrmap a { reg {} c; };\n\
refused 107 a.rdl:1:20 RdlPlace|\n\
addrmap a { regfile {} r; };\n\
refused 107 a.rdl:1:24 RdlPlace|\n\
addrmap a { name = \"a\"; };\n\
refused 107 a.rdl:1:1 RdlPlace|\n\
addrmap a { regfile { reg { field {} f; } c, d; } r[2] += 4; };\n\
refused 107 a.rdl:1:46 RdlPlace|\n\
addrmap a { reg { field { foo; sw=1; } f; } c @ 2; q d; };\n\
refused 104 a.rdl:1:52 RdlName|\n\
addrmap a { reg { field { sw=1; } f; } c @ 2; reg { field { foo; } f; } d; };\n\
refused 105 a.rdl:1:61 RdlProperty|\n\
addrmap a { reg { field {} f[33]; field {} g=2; } c @ 2; reg { field {} f; } d[1025]; };\n\
refused 106 a.rdl:1:44 RdlValue|\n\
addrmap a { reg { field {} f; } c[1025]; reg { field {} f; } d @ 2; };\n\
refused 107 a.rdl:1:62 RdlPlace|\n\
";

/// The text with a line feed for each bar.
fn with_feeds(alloc: Global, line: &[u8]) -> Result<Vec<u8>, AllocError> {
    let mut text = line.to_vec(alloc)?;
    for byte in text.iter_mut() {
        if *byte == b'|' {
            *byte = b'\n';
        }
    }
    Ok(text)
}

#[test]
fn each_description_has_its_lines_or_its_refusal(rt: HostRuntime) -> Result<(), Fail> {
    let alloc = rt.alloc();
    let mut text = b"".as_slice();
    for (number, line) in CASES.split(|byte| *byte == b'\n').enumerate() {
        if number % 2 == 0 {
            text = line;
        } else {
            let (status, put) = mapped(alloc, text)?;
            let due = with_feeds(alloc, line)?;
            let refused = due.as_slice().starts_with(b"refused".as_slice());
            assert_eq!(rt;
                put.as_slice(),
                due.as_slice(),
                "the description in line {number} of the table"
            );
            assert_eq!(rt;
                status == Status::Refused,
                refused,
                "the status of line {number}"
            );
        }
    }
    Ok(())
}
