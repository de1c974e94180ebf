use crate::scripts::Stored;

pub(crate) const SCRIPT: Stored = Stored {
    rack: "",
    lines: "commit 3
push 3 2 4
push 1 3 6
push 3 1 4
push 1 2 6
win 2
commit 3
look 2 3 4
look 3 2 5
submit 3 11 25 -880
push 1 2 6
push 3 2 4
push 2 1 6
push 1 3 5
look 2 1 6
look 2 1 6
look 1 2 6
push 2 3 4
look 3 1 6
push 1 2 5
look 1 3 6
look 2 3 4
push 1 2 6
look 3 1 5
take 3 2
push 3 2 5
push 1 3 6
ship 1 2
elect 3
elect 2
ship 2 3
push 3 1 4
look 2 1 5
push 3 2 4
take 2 1
push 2 3 4
ship 2 3
push 2 1 5
look 3 2 4
look 2 3 5
push 1 3 5
look 1 2 5
look 3 1 5
push 3 2 4
look 3 1 6
push 2 1 6
look 1 3 4
push 2 1 6
look 2 3 4
push 2 1 6
look 1 3 4
push 2 1 6
push 3 1 5
look 2 3 4
push 3 1 4
look 2 1 6
commit 3
push 1 2 4
push 2 1 4
push 2 3 4
look 2 1 4
push 1 2 6
push 1 3 4
push 3 2 4
look 2 1 6
look 1 2 4
push 2 3 4
ship 2 1
push 2 1 4
look 3 2 4
ship 2 1
push 3 2 6
look 2 3 4
push 1 2 6
look 2 3 6
push 3 1 5
submit 1 6 26 -367
look 1 3 5
look 1 3 4
look 1 2 6
look 1 2 6
look 3 2 4
look 1 3 5
elect 3
look 1 2 6
look 1 2 6
push 1 2 4
commit 3
push 2 1 5
look 1 2 6
look 3 2 4
commit 3
look 2 1 6
look 3 1 4
ship 3 1
push 3 2 4
push 2 3 5
look 1 2 4
push 1 3 5
look 2 1 4
look 2 3 4
push 3 1 5
look 3 1 5
submit 2 5 13 687
push 1 2 4
look 3 2 5
ship 1 2
look 2 1 4
look 1 2 5
push 3 1 4
look 1 3 4
look 1 3 5
look 1 3 5
push 1 2 5
look 2 1 5
look 3 1 6
timeout 2
push 2 3 5
push 2 3 5
commit 1
ship 2 3
commit 3
push 3 1 4
commit 1
push 3 2 5
push 1 3 6
push 1 2 4
timeout 3
push 1 3 4
push 2 3 5
look 2 1 4
look 2 3 5
push 1 2 6
look 3 1 4
push 3 2 6
push 1 2 6
push 1 2 5
push 3 1 4
push 3 2 5
look 2 3 5
push 2 3 6
push 1 3 4
elect 2
push 2 3 4
push 3 1 5
push 1 3 5
look 2 1 6
ship 1 2
ship 3 3
push 1 3 6
look 3 1 5
look 1 3 5
push 3 2 5
push 2 1 5
look 3 1 4
look 3 2 5
push 2 3 5
look 2 3 6
elect 1
look 3 2 5
look 3 2 6
look 2 1 5
push 3 1 5
look 3 2 5
look 3 2 5
look 2 3 5
look 1 3 4
look 3 1 5
take 1 3
push 2 1 4
win 3
look 3 2 4
look 1 2 5
submit 3 1 0 -197
push 3 2 5
look 1 2 5
ship 3 1
take 1 3
look 1 3 4
push 3 1 5
look 3 1 6
push 2 1 6
look 2 3 5
look 3 1 6
commit 3
look 2 1 6
ship 3 1
look 1 2 6
take 1 0
look 1 2 4
submit 3 15 31 -912
ship 3 2
push 2 3 4
push 1 2 4
look 3 2 4
push 3 1 4
ship 3 1
ship 3 2
take 2 3
submit 1 2 32 -235
look 3 1 5
timeout 1
push 3 2 5
take 1 3
push 2 3 4
take 2 3
push 2 3 5
push 1 2 6
take 1 3
look 3 2 4
look 2 3 5
ship 3 2
commit 3
take 2 3
push 3 2 4
look 1 3 5
take 3 1
push 2 3 5
push 3 2 4
look 2 1 4
push 2 1 4
look 1 3 5
push 1 3 5
submit 3 9 28 71
look 1 3 4
ship 3 2
push 2 3 5
look 3 2 5
push 3 2 5
push 3 1 4
push 2 3 5
commit 1
look 3 1 5
push 2 1 4
win 2
look 1 2 4
take 2 3
push 2 3 4
submit 3 11 23 303
submit 2 13 0 -427
look 2 3 4
look 3 2 4
ship 3 3
push 1 3 5
look 2 3 4
commit 3
look 1 2 4
ship 3 2
commit 3
submit 3 5 23 -861
ship 3 2
submit 3 4 2 848
push 3 1 5
take 2 3
commit 3
push 1 3 5
push 3 2 6
look 1 3 4
look 3 1 5
take 2 3
push 3 1 5
submit 3 5 27 674
submit 3 5 27 931
look 3 2 5
look 2 1 6
push 3 2 6
ship 3 2
push 1 2 5
submit 3 4 8 -561
ship 3 2
look 2 1 5
ship 1 2
take 2 3
ship 3 2
push 2 1 5
look 1 3 5
ship 3 1
look 1 3 5
push 2 1 5
take 1 3
ship 3 1
push 3 1 6
look 2 3 5
take 2 3
ship 3 2
elect 3
push 2 3 5
ship 3 1
look 1 3 6
push 3 1 4
take 2 3
ship 3 1
submit 3 0 6 -697
take 2 3
push 3 1 4
take 1 3
look 1 3 4
look 3 2 6
look 3 2 5
ship 3 2
push 2 3 4
push 1 3 5
elect 3
push 1 2 5
take 2 3
look 3 1 5
push 3 2 5
push 2 3 4
take 2 0
take 1 3
look 3 1 5
push 1 2 6
commit 2
push 1 2 5
look 2 3 6
look 3 2 4
push 1 3 4
ship 3 1
commit 2
ship 3 1
push 2 1 4
ship 3 1
look 1 2 4
look 2 3 5
commit 2
push 2 1 5
take 1 3
push 3 2 6
submit 3 9 27 -210
commit 2
look 2 3 6
ship 3 2
commit 2
push 2 1 6
ship 3 1
look 2 3 6
take 2 3
take 1 3
push 3 1 4
look 3 2 5
look 3 1 4
look 3 2 4
take 1 3
submit 3 3 23 -112
commit 3
take 1 3
commit 3
push 1 2 4
look 1 2 6
push 1 2 4
commit 3
submit 3 0 7 187
look 1 2 5
look 1 2 5
ship 3 2
ship 3 1
push 2 3 6
ship 3 2
push 3 2 5
look 1 2 5
look 3 2 6
take 2 3
take 2 3
submit 3 15 15 887
ship 3 2
push 2 3 6
look 3 2 6
push 1 2 5
take 1 3
commit 3
submit 3 12 1 324
ship 3 2
look 2 3 5
elect 1
look 2 1 4
submit 3 5 22 -176
push 3 2 4
ship 3 2
take 2 3
push 3 1 4
take 1 2
look 3 2 5
take 1 3
push 2 3 6
ship 1 2
ship 3 1
ship 1 2
push 2 3 5
push 1 2 5
commit 3
push 1 3 5
take 1 3
look 3 1 5
push 1 3 5
push 1 2 5
look 2 1 5
take 2 3
take 2 3
push 2 3 5
look 2 1 5
push 3 2 6
commit 3
look 2 3 6
commit 2
push 2 3 5
commit 2
elect 3
look 2 3 7
look 3 2 6
submit 2 12 4 -370
look 1 3 4
look 2 1 4
look 2 1 5
commit 3
take 2 0
push 1 3 4
commit 2
push 3 2 5
ship 3 1
look 2 3 4
push 3 2 4
commit 2
push 3 1 4
push 2 1 5
push 3 1 6
take 1 3
look 2 1 5
ship 3 1
commit 2
look 3 2 5
look 3 2 5
push 3 1 6
look 2 1 5
push 2 3 4
push 3 1 4
look 2 3 4
push 2 1 6
take 2 0
push 3 1 6
ship 3 1
take 1 3
look 3 1 6
take 1 0
look 1 3 6
look 3 2 5
push 2 3 5
take 1 3
timeout 1
look 3 1 4
look 1 2 5
look 1 3 6
push 2 1 4
ship 3 1
submit 2 13 8 565
take 1 3
look 1 2 6
look 1 3 4
push 1 2 4
look 1 3 4
look 3 2 5
look 1 3 6
look 3 2 4
commit 1
commit 3
push 3 2 5
push 3 2 6
push 2 1 6
commit 3
commit 3
look 2 1 4
look 1 3 4
commit 3
look 1 2 4
look 2 3 6
look 2 1 6
commit 3
commit 2
commit 3
commit 2
look 2 3 5
commit 2
look 2 3 5
push 3 2 4
push 3 1 5
push 2 1 5
win 2
ship 2 1
look 3 1 5
ship 3 2
look 1 2 6
push 1 2 5
push 1 3 4
look 1 2 5
push 3 1 5
timeout 1
look 2 1 5
push 2 1 6
push 1 3 4
push 1 2 5
push 3 1 6
",
    prints: "no 5
ok
ok
ok
ok
no 7
no 5
ok
no 6
no 5
ok
ok
ok
ok
ok
ok
ok
ok
ok
ok
no 6
ok
ok
ok
no 6
ok
ok
no 5
ok 0
ok 0
no 5
ok
ok
ok
no 6
ok
no 5
ok
ok
ok
ok
ok
ok
ok
ok
ok
ok
ok
ok
ok
ok
ok
ok
ok
ok
ok
no 5
ok
ok
ok
ok
ok
ok
ok
ok
ok
ok
no 5
ok
ok
no 5
ok
ok
ok
ok
ok
no 5
ok
ok
ok
ok
ok
ok
ok 0
ok
ok
ok
no 5
ok
no 6
ok
no 5
ok
ok
no 5
ok
ok
ok
ok
ok
ok
ok
ok
no 5
ok
ok
no 5
ok
ok
ok
ok
ok
no 6
ok
ok
no 6
ok 0 2
ok
ok
no 5
no 5
no 5
ok
no 5
ok
ok
ok
ok 0 3
ok
ok
ok
ok
ok
ok
ok
ok
ok
ok
ok
ok
ok
ok
ok 2
ok
ok
ok
ok
no 5
no 1
ok
ok
ok
ok
ok
ok
ok
ok
ok
ok 2
ok
ok
ok
ok
ok
ok
ok
ok
no 6
no 6
ok
ok 0 3
ok
ok
ok 0 3 1
ok
no 6
ok 1
ok 2
ok
ok
ok
ok
ok
ok
no 6
ok
ok 1
ok
no 1
ok
ok 0 3 2
ok 1
ok
ok
ok
ok
ok 1
ok 1
ok 2
no 3
no 6
ok 1 1
ok
ok 0
ok
ok 1
ok
no 6
ok 0
ok
ok
ok 1
ok 0
ok 1
ok
ok
no 6
ok
ok
ok
ok
ok
ok
ok 0 3 3
ok
ok 1
ok
ok
ok
ok
ok
no 5
ok
ok
no 5
ok
ok 1
ok
ok 0 3 4
no 5
ok
ok
no 1
ok
ok
ok 1
ok
ok 1
ok 1
ok 0 3 5
ok 1
ok 0 3 6
ok
ok 1
ok 1
ok
ok
ok
ok
ok 1
ok
ok 0 3 7
ok 0 3 8
ok
no 6
ok
ok 1
ok
ok 0 3 9
ok 1
ok
no 5
ok 1
ok 1
ok
ok
ok 1
ok
ok
ok 0
ok 1
ok
ok
ok 1
ok 1
no 5
ok
ok 1
ok
ok
ok 1
ok 1
ok 0 3 10
ok 1
ok
ok 0
ok
no 6
ok
ok 1
ok
ok
no 5
ok
ok 1
ok
ok
ok
no 1
ok 0
ok
no 6
no 6
ok
ok
ok
ok
ok 1
ok 0
ok 1
ok
ok 1
ok
ok
ok 1
ok
ok 0
ok
ok 0 3 11
ok 1
ok
ok 1
ok 1
ok
ok 1
ok
ok 1
ok 0
ok
ok
ok
ok
ok 0
ok 0 3 12
ok 1
ok 0
ok 1
ok
ok
ok
ok 1
ok 0 3 13
ok
ok
ok 1
ok 1
ok
ok 1
ok
ok
ok
ok 1
ok 1
ok 0 3 14
ok 1
ok
ok
ok
ok 0
ok 1
ok 0 3 15
ok 1
ok
ok 0
ok
ok 0 3 16
ok
ok 1
ok 1
ok
no 6
ok
ok 0
ok
no 5
ok 1
no 5
ok
ok
ok 1
ok
ok 0
ok
ok
ok
ok
ok 1
ok 1
ok
ok
ok
ok 1
ok
ok 1
ok
ok 1
no 5
no 3
ok
no 5
ok
ok
ok
ok 1
no 1
ok
ok 1
ok
ok 1
ok
ok
ok 1
ok
ok
ok
ok 0
ok
ok 1
ok 1
ok
ok
ok
ok
ok
ok
ok
ok
no 1
ok
ok 1
ok 0
no 6
no 1
ok
ok
ok
ok 0
ok 2 1
ok
ok
ok
ok
ok 1
no 5
ok 0
ok
ok
ok
ok
ok
ok
ok
no 5
ok 1
ok
ok
ok
ok 1
ok 1
ok
ok
ok 1
ok
ok
no 6
ok 1
ok 1
ok 1
ok 1
ok
ok 1
ok
ok
ok
ok
no 5
no 5
ok
no 6
ok
ok
ok
ok
ok
ok 3 1
ok
ok
ok
ok
ok
card 1
card 2 0.3.1 0.3.2 0.3.3 0.3.4 0.3.5 0.3.6 0.3.7 0.3.8 0.3.9 0.3.10 0.3.11
card 3 0.3.1 0.3.2 0.3.3 0.3.4 0.3.5 0.3.6 0.3.7 0.3.8 0.3.9 0.3.10 0.3.11 0.3.12 0.3.13 0.3.14 0.3.15 0.3.16
",
};
