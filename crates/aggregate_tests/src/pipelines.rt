//! Pipelines over the documents of a shard, and what comes of them.

/// The command file, the file of the shard a, and the status, what was written and what was noted.
pub type Case = (
    &'static [u8],
    &'static [u8],
    u8,
    &'static [u8],
    &'static [u8],
);

const RESULTS: &[Case] = &[
    // Each stage in turn. [{$match: {s: "ok"}}, {$unwind: "$i"}, {$project: {p: {$multiply: ["$i.q", "$i.p"]}}}, {$match:
    //   {p: {$gt: 5}}}, {$skip: 1}, {$limit: 1}] over {_id: 1, s: "ok", i: [{q: 2, p: 3}, {q: 1, p: 5}]}, {_id: 2, s:
    //   "no", i: [{q: 9, p: 9}]}, {_id: 3, s: "ok", i: [{q: 3, p: 4}]}, {_id: 4, s: "ok", i: [{q: 7, p: 1}]} gives {_id:
    //   3, p: 12}
    (
        b"\xf0\0\0\0\x02aggregate\0\x02\0\0\0c\0\x04pipeline\0\xd0\0\0\0\x030\0\x1c\0\0\0\x03$match\0\x0f\0\0\0\x02s\0\x03\0\0\0ok\0\0\0\x031\0\x15\0\0\0\x02$unwind\0\x03\0\0\0$i\0\0\x032\0D\0\0\0\x03$project\05\0\0\0\x03p\0-\0\0\0\x04$multiply\0\x1d\0\0\0\x020\0\x05\0\0\0$i.q\0\x021\0\x05\0\0\0$i.p\0\0\0\0\0\x033\0#\0\0\0\x03$match\0\x16\0\0\0\x03p\0\x0e\0\0\0\x10$gt\0\x05\0\0\0\0\0\0\x034\0\x10\0\0\0\x10$skip\0\x01\0\0\0\0\x035\0\x11\0\0\0\x10$limit\0\x01\0\0\0\0\0\0",
        b"L\0\0\0\x10_id\0\x01\0\0\0\x02s\0\x03\0\0\0ok\0\x04i\01\0\0\0\x030\0\x13\0\0\0\x10q\0\x02\0\0\0\x10p\0\x03\0\0\0\0\x031\0\x13\0\0\0\x10q\0\x01\0\0\0\x10p\0\x05\0\0\0\0\0\06\0\0\0\x10_id\0\x02\0\0\0\x02s\0\x03\0\0\0no\0\x04i\0\x1b\0\0\0\x030\0\x13\0\0\0\x10q\0\t\0\0\0\x10p\0\t\0\0\0\0\0\06\0\0\0\x10_id\0\x03\0\0\0\x02s\0\x03\0\0\0ok\0\x04i\0\x1b\0\0\0\x030\0\x13\0\0\0\x10q\0\x03\0\0\0\x10p\0\x04\0\0\0\0\0\06\0\0\0\x10_id\0\x04\0\0\0\x02s\0\x03\0\0\0ok\0\x04i\0\x1b\0\0\0\x030\0\x13\0\0\0\x10q\0\x07\0\0\0\x10p\0\x01\0\0\0\0\0\0",
        0,
        b"\x15\0\0\0\x10_id\0\x03\0\0\0\x10p\0\x0c\0\0\0\0",
        b"",
    ),
    // Skips beyond the last document. [{$skip: 9223372036854775807L}, {$skip: 9223372036854775807L}] over {_id: 1, k: 3,
    //   t: "x"}, {_id: 2, k: 4, t: "y"} gives nothing
    (
        b"S\0\0\0\x02aggregate\0\x02\0\0\0c\0\x04pipeline\03\0\0\0\x030\0\x14\0\0\0\x12$skip\0\xff\xff\xff\xff\xff\xff\xff\x7f\0\x031\0\x14\0\0\0\x12$skip\0\xff\xff\xff\xff\xff\xff\xff\x7f\0\0\0",
        b"\x1e\0\0\0\x10_id\0\x01\0\0\0\x10k\0\x03\0\0\0\x02t\0\x02\0\0\0x\0\0\x1e\0\0\0\x10_id\0\x02\0\0\0\x10k\0\x04\0\0\0\x02t\0\x02\0\0\0y\0\0",
        0,
        b"",
        b"",
    ),
    // An unwind. [{$unwind: "$u"}] over {_id: 1}, {_id: 2, u: null}, {_id: 3, u: []}, {_id: 4, u: 7}, {_id: 5, u: [8]}
    //   gives {_id: 4, u: 7}, {_id: 5, u: 8}
    (
        b"=\0\0\0\x02aggregate\0\x02\0\0\0c\0\x04pipeline\0\x1d\0\0\0\x030\0\x15\0\0\0\x02$unwind\0\x03\0\0\0$u\0\0\0\0",
        b"\x0e\0\0\0\x10_id\0\x01\0\0\0\0\x11\0\0\0\x10_id\0\x02\0\0\0\nu\0\0\x16\0\0\0\x10_id\0\x03\0\0\0\x04u\0\x05\0\0\0\0\0\x15\0\0\0\x10_id\0\x04\0\0\0\x10u\0\x07\0\0\0\0\x1d\0\0\0\x10_id\0\x05\0\0\0\x04u\0\x0c\0\0\0\x100\0\x08\0\0\0\0\0",
        0,
        b"\x15\0\0\0\x10_id\0\x04\0\0\0\x10u\0\x07\0\0\0\0\x15\0\0\0\x10_id\0\x05\0\0\0\x10u\0\x08\0\0\0\0",
        b"",
    ),
    // One that preserves, with an index. [{$unwind: {path: "$u", preserveNullAndEmptyArrays: true, includeArrayIndex:
    //   "i"}}] over {_id: 1}, {_id: 2, u: null}, {_id: 3, u: []}, {_id: 4, u: 7}, {_id: 5, u: [8]} gives {_id: 1, i:
    //   null}, {_id: 2, u: null, i: null}, {_id: 3, i: null}, {_id: 4, u: 7, i: null}, {_id: 5, u: 8, i: 0L}
    (
        b"~\0\0\0\x02aggregate\0\x02\0\0\0c\0\x04pipeline\0^\0\0\0\x030\0V\0\0\0\x03$unwind\0H\0\0\0\x02path\0\x03\0\0\0$u\0\x08preserveNullAndEmptyArrays\0\x01\x02includeArrayIndex\0\x02\0\0\0i\0\0\0\0\0",
        b"\x0e\0\0\0\x10_id\0\x01\0\0\0\0\x11\0\0\0\x10_id\0\x02\0\0\0\nu\0\0\x16\0\0\0\x10_id\0\x03\0\0\0\x04u\0\x05\0\0\0\0\0\x15\0\0\0\x10_id\0\x04\0\0\0\x10u\0\x07\0\0\0\0\x1d\0\0\0\x10_id\0\x05\0\0\0\x04u\0\x0c\0\0\0\x100\0\x08\0\0\0\0\0",
        0,
        b"\x11\0\0\0\x10_id\0\x01\0\0\0\ni\0\0\x14\0\0\0\x10_id\0\x02\0\0\0\nu\0\ni\0\0\x11\0\0\0\x10_id\0\x03\0\0\0\ni\0\0\x18\0\0\0\x10_id\0\x04\0\0\0\x10u\0\x07\0\0\0\ni\0\0 \0\0\0\x10_id\0\x05\0\0\0\x10u\0\x08\0\0\0\x12i\0\0\0\0\0\0\0\0\0\0",
        b"",
    ),
    // A place beyond the array. [{$project: {x: {$arrayElemAt: [[1], 3]}}}] over {_id: 1} gives {_id: 1}
    (
        b"m\0\0\0\x02aggregate\0\x02\0\0\0c\0\x04pipeline\0M\0\0\0\x030\0E\0\0\0\x03$project\06\0\0\0\x03x\0.\0\0\0\x04$arrayElemAt\0\x1b\0\0\0\x040\0\x0c\0\0\0\x100\0\x01\0\0\0\0\x101\0\x03\0\0\0\0\0\0\0\0\0",
        b"\x0e\0\0\0\x10_id\0\x01\0\0\0\0",
        0,
        b"\x0e\0\0\0\x10_id\0\x01\0\0\0\0",
        b"",
    ),
    // Null, which a missing field equals and an empty array does not. [{$match: {q: null}}] over {_id: 1}, {_id: 2, q:
    //   null}, {_id: 3, q: []} gives {_id: 1}, {_id: 2, q: null}
    (
        b"=\0\0\0\x02aggregate\0\x02\0\0\0c\0\x04pipeline\0\x1d\0\0\0\x030\0\x15\0\0\0\x03$match\0\x08\0\0\0\nq\0\0\0\0\0",
        b"\x0e\0\0\0\x10_id\0\x01\0\0\0\0\x11\0\0\0\x10_id\0\x02\0\0\0\nq\0\0\x16\0\0\0\x10_id\0\x03\0\0\0\x04q\0\x05\0\0\0\0\0",
        0,
        b"\x0e\0\0\0\x10_id\0\x01\0\0\0\0\x11\0\0\0\x10_id\0\x02\0\0\0\nq\0\0",
        b"",
    ),
    // A path through an array. [{$addFields: {"a.b": 1}}] over {a: [{c: 1}, 5]} gives {a: [{c: 1, b: 1}, {b: 1}]}
    (
        b"G\0\0\0\x02aggregate\0\x02\0\0\0c\0\x04pipeline\0'\0\0\0\x030\0\x1f\0\0\0\x03$addFields\0\x0e\0\0\0\x10a.b\0\x01\0\0\0\0\0\0\0",
        b"#\0\0\0\x04a\0\x1b\0\0\0\x030\0\x0c\0\0\0\x10c\0\x01\0\0\0\0\x101\0\x05\0\0\0\0\0",
        0,
        b"2\0\0\0\x04a\0*\0\0\0\x030\0\x13\0\0\0\x10c\0\x01\0\0\0\x10b\0\x01\0\0\0\0\x031\0\x0c\0\0\0\x10b\0\x01\0\0\0\0\0\0",
        b"",
    ),
    // A count, and one of nothing. [{$match: {t: "x"}}, {$count: "n"}] over {_id: 1, t: "x"}, {_id: 2, t: "y"}, {_id: 3,
    //   t: "x"} gives {n: 2}
    (
        b"Y\0\0\0\x02aggregate\0\x02\0\0\0c\0\x04pipeline\09\0\0\0\x030\0\x1b\0\0\0\x03$match\0\x0e\0\0\0\x02t\0\x02\0\0\0x\0\0\0\x031\0\x13\0\0\0\x02$count\0\x02\0\0\0n\0\0\0\0",
        b"\x17\0\0\0\x10_id\0\x01\0\0\0\x02t\0\x02\0\0\0x\0\0\x17\0\0\0\x10_id\0\x02\0\0\0\x02t\0\x02\0\0\0y\0\0\x17\0\0\0\x10_id\0\x03\0\0\0\x02t\0\x02\0\0\0x\0\0",
        0,
        b"\x0c\0\0\0\x10n\0\x02\0\0\0\0",
        b"",
    ),
    // [{$match: {t: "z"}}, {$count: "n"}] over {_id: 1, t: "x"} gives nothing
    (
        b"Y\0\0\0\x02aggregate\0\x02\0\0\0c\0\x04pipeline\09\0\0\0\x030\0\x1b\0\0\0\x03$match\0\x0e\0\0\0\x02t\0\x02\0\0\0z\0\0\0\x031\0\x13\0\0\0\x02$count\0\x02\0\0\0n\0\0\0\0",
        b"\x17\0\0\0\x10_id\0\x01\0\0\0\x02t\0\x02\0\0\0x\0\0",
        0,
        b"",
        b"",
    ),
    // A new root, and fields taken away. [{$replaceRoot: {newRoot: "$d"}}, {$unset: ["a", "b.c"]}] over {_id: 1, d: {a:
    //   1, b: {c: 2, e: 3}}} gives {b: {e: 3}}
    (
        b"y\0\0\0\x02aggregate\0\x02\0\0\0c\0\x04pipeline\0Y\0\0\0\x030\0(\0\0\0\x03$replaceRoot\0\x15\0\0\0\x02newRoot\0\x03\0\0\0$d\0\0\0\x031\0&\0\0\0\x04$unset\0\x19\0\0\0\x020\0\x02\0\0\0a\0\x021\0\x04\0\0\0b.c\0\0\0\0\0",
        b"3\0\0\0\x10_id\0\x01\0\0\0\x03d\0\"\0\0\0\x10a\0\x01\0\0\0\x03b\0\x13\0\0\0\x10c\0\x02\0\0\0\x10e\0\x03\0\0\0\0\0\0",
        0,
        b"\x14\0\0\0\x03b\0\x0c\0\0\0\x10e\0\x03\0\0\0\0\0",
        b"",
    ),
    // A field of a date. [{$set: {y: {$year: "$d"}}}] over {_id: 1, d: D(0)} gives {_id: 1, d: D(0), y: 1970}
    (
        b"N\0\0\0\x02aggregate\0\x02\0\0\0c\0\x04pipeline\0.\0\0\0\x030\0&\0\0\0\x03$set\0\x1b\0\0\0\x03y\0\x13\0\0\0\x02$year\0\x03\0\0\0$d\0\0\0\0\0\0",
        b"\x19\0\0\0\x10_id\0\x01\0\0\0\td\0\0\0\0\0\0\0\0\0\0",
        0,
        b" \0\0\0\x10_id\0\x01\0\0\0\td\0\0\0\0\0\0\0\0\0\x10y\0\xb2\x07\0\0\0",
        b"",
    ),
    // A collection that the cluster does not name. collection d: [{$project: {v: {$add: ["$v", 1]}}}] over {_id: 1, v:
    //   "no"} gives nothing
    (
        b"`\0\0\0\x02aggregate\0\x02\0\0\0d\0\x04pipeline\0@\0\0\0\x030\08\0\0\0\x03$project\0)\0\0\0\x03v\0!\0\0\0\x04$add\0\x16\0\0\0\x020\0\x03\0\0\0$v\0\x101\0\x01\0\0\0\0\0\0\0\0\0",
        b"\x18\0\0\0\x10_id\0\x01\0\0\0\x02v\0\x03\0\0\0no\0\0",
        0,
        b"",
        b"",
    ),
];

const FAILURES: &[Case] = &[
    // A later match does not hide a failure. [{$project: {v: {$add: ["$v", 1]}}}, {$match: {_id: 2}}] over {_id: 1, k: 1,
    //   v: "no"}, {_id: 2, k: 2, v: 5}
    (
        b"~\0\0\0\x02aggregate\0\x02\0\0\0c\0\x04pipeline\0^\0\0\0\x030\08\0\0\0\x03$project\0)\0\0\0\x03v\0!\0\0\0\x04$add\0\x16\0\0\0\x020\0\x03\0\0\0$v\0\x101\0\x01\0\0\0\0\0\0\0\x031\0\x1b\0\0\0\x03$match\0\x0e\0\0\0\x10_id\0\x02\0\0\0\0\0\0\0",
        b"\x1f\0\0\0\x10_id\0\x01\0\0\0\x10k\0\x01\0\0\0\x02v\0\x03\0\0\0no\0\0\x1c\0\0\0\x10_id\0\x02\0\0\0\x10k\0\x02\0\0\0\x10v\0\x05\0\0\0\0",
        8,
        b"",
        b"error: evaluation stage 1 code 1 WrongType\n",
    ),
    // Nor does a limit. [{$project: {v: {$add: ["$v", 1]}}}, {$limit: 3}] over {_id: 0, k: 0, v: 0} to {_id: 9, k: 9, v:
    //   "no"}
    (
        b"t\0\0\0\x02aggregate\0\x02\0\0\0c\0\x04pipeline\0T\0\0\0\x030\08\0\0\0\x03$project\0)\0\0\0\x03v\0!\0\0\0\x04$add\0\x16\0\0\0\x020\0\x03\0\0\0$v\0\x101\0\x01\0\0\0\0\0\0\0\x031\0\x11\0\0\0\x10$limit\0\x03\0\0\0\0\0\0",
        b"\x1c\0\0\0\x10_id\0\0\0\0\0\x10k\0\0\0\0\0\x10v\0\0\0\0\0\0\x1c\0\0\0\x10_id\0\x01\0\0\0\x10k\0\x01\0\0\0\x10v\0\x01\0\0\0\0\x1c\0\0\0\x10_id\0\x02\0\0\0\x10k\0\x02\0\0\0\x10v\0\x02\0\0\0\0\x1c\0\0\0\x10_id\0\x03\0\0\0\x10k\0\x03\0\0\0\x10v\0\x03\0\0\0\0\x1c\0\0\0\x10_id\0\x04\0\0\0\x10k\0\x04\0\0\0\x10v\0\x04\0\0\0\0\x1c\0\0\0\x10_id\0\x05\0\0\0\x10k\0\x05\0\0\0\x10v\0\x05\0\0\0\0\x1c\0\0\0\x10_id\0\x06\0\0\0\x10k\0\x06\0\0\0\x10v\0\x06\0\0\0\0\x1c\0\0\0\x10_id\0\x07\0\0\0\x10k\0\x07\0\0\0\x10v\0\x07\0\0\0\0\x1c\0\0\0\x10_id\0\x08\0\0\0\x10k\0\x08\0\0\0\x10v\0\x08\0\0\0\0\x1f\0\0\0\x10_id\0\t\0\0\0\x10k\0\t\0\0\0\x02v\0\x03\0\0\0no\0\0",
        8,
        b"",
        b"error: evaluation stage 1 code 1 WrongType\n",
    ),
    // No branch. [{$project: {x: {$switch: {branches: [{case: false, then: 1}]}}}}] over {_id: 1}
    (
        b"z\0\0\0\x02aggregate\0\x02\0\0\0c\0\x04pipeline\0Z\0\0\0\x030\0R\0\0\0\x03$project\0C\0\0\0\x03x\0;\0\0\0\x03$switch\0-\0\0\0\x04branches\0\x1e\0\0\0\x030\0\x16\0\0\0\x08case\0\0\x10then\0\x01\0\0\0\0\0\0\0\0\0\0\0",
        b"\x0e\0\0\0\x10_id\0\x01\0\0\0\0",
        8,
        b"",
        b"error: evaluation stage 1 code 6 NoBranch\n",
    ),
    // A root that is no document. [{$match: {}}, {$replaceWith: "$v"}] over {_id: 1, v: 7}
    (
        b"W\0\0\0\x02aggregate\0\x02\0\0\0c\0\x04pipeline\07\0\0\0\x030\0\x12\0\0\0\x03$match\0\x05\0\0\0\0\0\x031\0\x1a\0\0\0\x02$replaceWith\0\x03\0\0\0$v\0\0\0\0",
        b"\x15\0\0\0\x10_id\0\x01\0\0\0\x10v\0\x07\0\0\0\0",
        8,
        b"",
        b"error: evaluation stage 2 code 8 NotDocument\n",
    ),
    // The earliest stage, though an earlier document failed in a later one. [{$set: {v: {$add: ["$v", 1]}}}, {$set: {w:
    //   {$size: "$w"}}}] over {_id: 1, v: 1, w: 1}, {_id: 2, v: "no", w: []}
    (
        b"\x85\0\0\0\x02aggregate\0\x02\0\0\0c\0\x04pipeline\0e\0\0\0\x030\04\0\0\0\x03$set\0)\0\0\0\x03v\0!\0\0\0\x04$add\0\x16\0\0\0\x020\0\x03\0\0\0$v\0\x101\0\x01\0\0\0\0\0\0\0\x031\0&\0\0\0\x03$set\0\x1b\0\0\0\x03w\0\x13\0\0\0\x02$size\0\x03\0\0\0$w\0\0\0\0\0\0",
        b"\x1c\0\0\0\x10_id\0\x01\0\0\0\x10v\0\x01\0\0\0\x10w\0\x01\0\0\0\0 \0\0\0\x10_id\0\x02\0\0\0\x02v\0\x03\0\0\0no\0\x04w\0\x05\0\0\0\0\0",
        8,
        b"",
        b"error: evaluation stage 1 code 1 WrongType\n",
    ),
    // The least code of that stage. [{$set: {w: {$size: "$w"}, v: {$add: ["$v", 1]}}}] over {_id: 1, v: 1, w: 1}, {_id:
    //   2, v: "no", w: []}
    (
        b"r\0\0\0\x02aggregate\0\x02\0\0\0c\0\x04pipeline\0R\0\0\0\x030\0J\0\0\0\x03$set\0?\0\0\0\x03w\0\x13\0\0\0\x02$size\0\x03\0\0\0$w\0\0\x03v\0!\0\0\0\x04$add\0\x16\0\0\0\x020\0\x03\0\0\0$v\0\x101\0\x01\0\0\0\0\0\0\0\0\0",
        b"\x1c\0\0\0\x10_id\0\x01\0\0\0\x10v\0\x01\0\0\0\x10w\0\x01\0\0\0\0 \0\0\0\x10_id\0\x02\0\0\0\x02v\0\x03\0\0\0no\0\x04w\0\x05\0\0\0\0\0",
        8,
        b"",
        b"error: evaluation stage 1 code 1 WrongType\n",
    ),
    // A result that is too long. [{$project: {a: {$reduce: {input: {$range: [0, 20]}, initialValue: "0123456789abcdef",
    //   in: {$concat: ["$$value", "$$value"]}}}}}] over {_id: 1}
    (
        b"\xd1\0\0\0\x02aggregate\0\x02\0\0\0c\0\x04pipeline\0\xb1\0\0\0\x030\0\xa9\0\0\0\x03$project\0\x9a\0\0\0\x03a\0\x92\0\0\0\x03$reduce\0\x84\0\0\0\x03input\0 \0\0\0\x04$range\0\x13\0\0\0\x100\0\0\0\0\0\x101\0\x14\0\0\0\0\0\x02initialValue\0\x11\0\0\00123456789abcdef\0\x03in\01\0\0\0\x04$concat\0#\0\0\0\x020\0\x08\0\0\0$$value\0\x021\0\x08\0\0\0$$value\0\0\0\0\0\0\0\0\0",
        b"\x0e\0\0\0\x10_id\0\x01\0\0\0\0",
        8,
        b"",
        b"error: evaluation stage 2 code 13 ResultTooLong\n",
    ),
    // One that is nested too deep. [{$project: {a: {$reduce: {input: {$range: [0, 99]}, initialValue: [], in:
    //   ["$$value"]}}}}] over {_id: 1}
    (
        b"\xa4\0\0\0\x02aggregate\0\x02\0\0\0c\0\x04pipeline\0\x84\0\0\0\x030\0|\0\0\0\x03$project\0m\0\0\0\x03a\0e\0\0\0\x03$reduce\0W\0\0\0\x03input\0 \0\0\0\x04$range\0\x13\0\0\0\x100\0\0\0\0\0\x101\0c\0\0\0\0\0\x04initialValue\0\x05\0\0\0\0\x04in\0\x14\0\0\0\x020\0\x08\0\0\0$$value\0\0\0\0\0\0\0\0",
        b"\x0e\0\0\0\x10_id\0\x01\0\0\0\0",
        8,
        b"",
        b"error: evaluation stage 2 code 14 ResultTooDeep\n",
    ),
    // Deeper than a value may be on the way. [{$project: {a: {$reduce: {input: {$range: [0, 200]}, initialValue: [], in:
    //   ["$$value"]}}}}] over {_id: 1}
    (
        b"\xa4\0\0\0\x02aggregate\0\x02\0\0\0c\0\x04pipeline\0\x84\0\0\0\x030\0|\0\0\0\x03$project\0m\0\0\0\x03a\0e\0\0\0\x03$reduce\0W\0\0\0\x03input\0 \0\0\0\x04$range\0\x13\0\0\0\x100\0\0\0\0\0\x101\0\xc8\0\0\0\0\0\x04initialValue\0\x05\0\0\0\0\x04in\0\x14\0\0\0\x020\0\x08\0\0\0$$value\0\0\0\0\0\0\0\0",
        b"\x0e\0\0\0\x10_id\0\x01\0\0\0\0",
        8,
        b"",
        b"error: evaluation stage 1 code 12 NestTooDeep\n",
    ),
    // Too long before too deep, whichever comes first. [{$match: {}}, {$project: {a: {$cond: [{$eq: ["$_id", 1]},
    //   {$reduce: {input: {$range: [0, 99]}, initialValue: [], in: ["$$value"]}}, {$reduce: {input: {$range: [0, 20]},
    //   initialValue: "0123456789abcdef", in: {$concat: ["$$value", "$$value"]}}}]}}}] over {_id: 1}, {_id: 2}
    (
        b"\x87\x01\0\0\x02aggregate\0\x02\0\0\0c\0\x04pipeline\0g\x01\0\0\x030\0\x12\0\0\0\x03$match\0\x05\0\0\0\0\0\x031\0J\x01\0\0\x03$project\0;\x01\0\0\x03a\03\x01\0\0\x04$cond\0'\x01\0\0\x030\0\"\0\0\0\x04$eq\0\x18\0\0\0\x020\0\x05\0\0\0$_id\0\x101\0\x01\0\0\0\0\0\x031\0e\0\0\0\x03$reduce\0W\0\0\0\x03input\0 \0\0\0\x04$range\0\x13\0\0\0\x100\0\0\0\0\0\x101\0c\0\0\0\0\0\x04initialValue\0\x05\0\0\0\0\x04in\0\x14\0\0\0\x020\0\x08\0\0\0$$value\0\0\0\0\x032\0\x92\0\0\0\x03$reduce\0\x84\0\0\0\x03input\0 \0\0\0\x04$range\0\x13\0\0\0\x100\0\0\0\0\0\x101\0\x14\0\0\0\0\0\x02initialValue\0\x11\0\0\00123456789abcdef\0\x03in\01\0\0\0\x04$concat\0#\0\0\0\x020\0\x08\0\0\0$$value\0\x021\0\x08\0\0\0$$value\0\0\0\0\0\0\0\0\0\0\0",
        b"\x0e\0\0\0\x10_id\0\x01\0\0\0\0\x0e\0\0\0\x10_id\0\x02\0\0\0\0",
        8,
        b"",
        b"error: evaluation stage 3 code 13 ResultTooLong\n",
    ),
    // A stage before the check, whichever fails first. [{$project: {a: {$reduce: {input: {$range: [0, 20]}, initialValue:
    //   "0123456789abcdef", in: {$concat: ["$$value", "$$value"]}}}, v: {$add: ["$v", 1]}}}] over {_id: 1, v: 1}, {_id:
    //   2, v: "no"}
    (
        b"\xf5\0\0\0\x02aggregate\0\x02\0\0\0c\0\x04pipeline\0\xd5\0\0\0\x030\0\xcd\0\0\0\x03$project\0\xbe\0\0\0\x03a\0\x92\0\0\0\x03$reduce\0\x84\0\0\0\x03input\0 \0\0\0\x04$range\0\x13\0\0\0\x100\0\0\0\0\0\x101\0\x14\0\0\0\0\0\x02initialValue\0\x11\0\0\00123456789abcdef\0\x03in\01\0\0\0\x04$concat\0#\0\0\0\x020\0\x08\0\0\0$$value\0\x021\0\x08\0\0\0$$value\0\0\0\0\0\x03v\0!\0\0\0\x04$add\0\x16\0\0\0\x020\0\x03\0\0\0$v\0\x101\0\x01\0\0\0\0\0\0\0\0\0",
        b"\x15\0\0\0\x10_id\0\x01\0\0\0\x10v\0\x01\0\0\0\0\x18\0\0\0\x10_id\0\x02\0\0\0\x02v\0\x03\0\0\0no\0\0",
        8,
        b"",
        b"error: evaluation stage 1 code 1 WrongType\n",
    ),
];

const LONG_ARRAYS: &[Case] = &[
    // Two arrays that are too long together. [{$project: {a: {$range: [0, 1048576]}, b: {$range: [0, 1048576]}}}] over
    //   {_id: 1}
    (
        b"\x82\0\0\0\x02aggregate\0\x02\0\0\0c\0\x04pipeline\0b\0\0\0\x030\0Z\0\0\0\x03$project\0K\0\0\0\x03a\0 \0\0\0\x04$range\0\x13\0\0\0\x100\0\0\0\0\0\x101\0\0\0\x10\0\0\0\x03b\0 \0\0\0\x04$range\0\x13\0\0\0\x100\0\0\0\0\0\x101\0\0\0\x10\0\0\0\0\0\0\0",
        b"\x0e\0\0\0\x10_id\0\x01\0\0\0\0",
        8,
        b"",
        b"error: evaluation stage 2 code 13 ResultTooLong\n",
    ),
];

const REFUSALS: &[Case] = &[
    // A stage of no such name. [{$match: {}}, {$nosuch: 1}]
    (
        b"O\0\0\0\x02aggregate\0\x02\0\0\0c\0\x04pipeline\0/\0\0\0\x030\0\x12\0\0\0\x03$match\0\x05\0\0\0\0\0\x031\0\x12\0\0\0\x10$nosuch\0\x01\0\0\0\0\0\0",
        b"",
        3,
        b"",
        b"error: command stage 2: Form\n",
    ),
    // A limit of 0. [{$limit: 0}]
    (
        b"9\0\0\0\x02aggregate\0\x02\0\0\0c\0\x04pipeline\0\x19\0\0\0\x030\0\x11\0\0\0\x10$limit\0\0\0\0\0\0\0\0",
        b"",
        3,
        b"",
        b"error: command stage 1: Form\n",
    ),
    // Stages that are not built. [{$match: {}}, {$sort: {_id: 1}}] over {_id: 1}
    (
        b"W\0\0\0\x02aggregate\0\x02\0\0\0c\0\x04pipeline\07\0\0\0\x030\0\x12\0\0\0\x03$match\0\x05\0\0\0\0\0\x031\0\x1a\0\0\0\x03$sort\0\x0e\0\0\0\x10_id\0\x01\0\0\0\0\0\0\0",
        b"\x0e\0\0\0\x10_id\0\x01\0\0\0\0",
        1,
        b"",
        b"error: not built\n",
    ),
    // [{$group: {_id: null, n: {$sum: 1}}}] over {_id: 1}
    (
        b"Q\0\0\0\x02aggregate\0\x02\0\0\0c\0\x04pipeline\01\0\0\0\x030\0)\0\0\0\x03$group\0\x1c\0\0\0\n_id\0\x03n\0\x0f\0\0\0\x10$sum\0\x01\0\0\0\0\0\0\0\0",
        b"\x0e\0\0\0\x10_id\0\x01\0\0\0\0",
        1,
        b"",
        b"error: not built\n",
    ),
    // [{$facet: {x: []}}] over {_id: 1}
    (
        b"B\0\0\0\x02aggregate\0\x02\0\0\0c\0\x04pipeline\0\"\0\0\0\x030\0\x1a\0\0\0\x03$facet\0\r\0\0\0\x04x\0\x05\0\0\0\0\0\0\0\0",
        b"\x0e\0\0\0\x10_id\0\x01\0\0\0\0",
        1,
        b"",
        b"error: not built\n",
    ),
    // [{$unionWith: "c"}] over {_id: 1}
    (
        b"?\0\0\0\x02aggregate\0\x02\0\0\0c\0\x04pipeline\0\x1f\0\0\0\x030\0\x17\0\0\0\x02$unionWith\0\x02\0\0\0c\0\0\0\0",
        b"\x0e\0\0\0\x10_id\0\x01\0\0\0\0",
        1,
        b"",
        b"error: not built\n",
    ),
    // [{$merge: "t"}] over {_id: 1}
    (
        b";\0\0\0\x02aggregate\0\x02\0\0\0c\0\x04pipeline\0\x1b\0\0\0\x030\0\x13\0\0\0\x02$merge\0\x02\0\0\0t\0\0\0\0",
        b"\x0e\0\0\0\x10_id\0\x01\0\0\0\0",
        1,
        b"",
        b"error: not built\n",
    ),
];

/// Pipelines that give results.
pub fn results() -> &'static [Case] {
    RESULTS
}

/// Pipelines of which a stage, or the check of the results, fails.
pub fn failures() -> &'static [Case] {
    FAILURES
}

/// A pipeline that makes long arrays.
pub fn long_arrays() -> &'static [Case] {
    LONG_ARRAYS
}

/// Commands that aren't run.
pub fn refusals() -> &'static [Case] {
    REFUSALS
}
