use crate::scripts::Stored;

pub(crate) const SCRIPT: Stored = Stored {
    rack: "places=8 backplane=box machine=board",
    lines: "timeout 0
elect 0
win 0
commit 0
stop 0
show 0
submit 0 99 64 1 1
submit 0 4 64 1 1
submit 0 4 7 1 42
ship 0 1
take 0 1
ship 1 0
take 1 0
push 0 1 9
look 0 1 9
push 1 0 9
look 1 0 9
timeout 256
elect 256
win 256
commit 256
stop 256
show 256
submit 256 99 64 1 1
submit 256 4 64 1 1
submit 256 4 7 1 42
ship 256 1
take 256 1
ship 1 256
take 1 256
push 256 1 9
look 256 1 9
push 1 256 9
look 1 256 9
timeout -1
elect -1
win -1
commit -1
stop -1
show -1
submit -1 99 64 1 1
submit -1 4 64 1 1
submit -1 4 7 1 42
ship -1 1
take -1 1
ship 1 -1
take 1 -1
push -1 1 9
look -1 1 9
push 1 -1 9
look 1 -1 9
timeout 99999999999999999999999999
elect 99999999999999999999999999
win 99999999999999999999999999
commit 99999999999999999999999999
stop 99999999999999999999999999
show 99999999999999999999999999
submit 99999999999999999999999999 99 64 1 1
submit 99999999999999999999999999 4 64 1 1
submit 99999999999999999999999999 4 7 1 42
ship 99999999999999999999999999 1
take 99999999999999999999999999 1
ship 1 99999999999999999999999999
take 1 99999999999999999999999999
push 99999999999999999999999999 1 9
look 99999999999999999999999999 1 9
push 1 99999999999999999999999999 9
look 1 99999999999999999999999999 9
timeout 4
elect 4
win 4
commit 4
stop 4
show 4
submit 4 99 64 1 1
submit 4 4 64 1 1
submit 4 4 7 1 42
ship 4 1
take 4 1
ship 1 4
take 1 4
push 4 1 9
look 4 1 9
push 1 4 9
look 1 4 9
ship 1 1
take 1 1
push 1 1 9
look 1 1 9
push 1 1 4
look 1 1 4
push 1 2 0
look 1 2 0
push 1 2 3
look 1 2 3
push 1 2 7
look 1 2 7
push 1 2 255
look 1 2 255
push 1 2 256
look 1 2 256
push 1 2 -4
look 1 2 -4
push 1 2 4294967300
look 1 2 4294967300
submit 1 16 7 1 42
submit 1 256 7 1 42
submit 1 -1 7 1 42
submit 1 18446744073709551616 7 1 42
submit 1 4 64 1 1
submit 1 4 -1 1 1
submit 1 4 0 0 1
submit 1 4 0 3 1
submit 1 4 0 1 0
submit 1 4 0 1 65536
submit 1 4 0 99999999999999999999 1
submit 1 15 7 1 42
ship 1 2
commit 1
take 1 2
look 1 2 4
look 1 2 5
look 1 2 6
win 1
elect 1
push 3 2 4
push 3 2 4
push 3 2 4
push 3 2 4
push 3 2 4
push 3 2 4
push 3 2 4
push 3 2 4
push 3 2 4
push 3 2 5
push 3 2 5
push 3 2 5
push 3 2 5
push 3 2 5
push 3 2 5
push 3 2 5
push 3 2 5
push 3 2 5
push 3 1 6
push 3 1 6
push 3 1 6
push 3 1 6
push 3 1 6
push 3 1 6
push 3 1 6
push 3 1 6
push 3 1 6
timeout 1
win 1
win 1
push 1 2 5
look 2 1 5
elect 2
push 2 1 5
look 1 2 5
win 2
win 1
win 1
elect 1
push 1 2 6
take 1 2
commit 1
submit 1 4 7 1 42
submit 1 15 8 1 43
submit 1 0 7 2 42
submit 1 4 7 1 44
submit 1 4 9 1 45
submit 1 4 10 1 46
submit 1 4 11 1 47
ship 1 3
ship 1 3
ship 1 3
ship 1 3
ship 1 3
ship 1 3
ship 1 3
ship 1 3
ship 1 3
submit 1 4 12 1 48
ship 1 3
submit 1 4 13 1 49
submit 1 16 7 1 42
show 1
take 3 1
take 3 1
ship 1 3
ship 1 3
elect 3
win 3
submit 3 4 7 1 42
submit 3 16 7 1 42
ship 3 1
commit 3
push 3 1 6
ship 1 2
take 2 1
ship 1 2
take 2 1
ship 1 2
take 2 1
ship 1 2
take 2 1
ship 1 2
take 2 1
ship 1 2
take 2 1
ship 1 2
take 2 1
ship 1 2
take 2 1
ship 1 2
take 2 1
ship 1 2
take 2 1
submit 2 4 7 1 42
commit 1
push 2 1 4
look 1 2 4
commit 1
commit 1
commit 1
commit 1
push 1 3 6
look 3 1 6
commit 3
commit 3
commit 3
push 1 2 6
look 2 1 6
commit 2
commit 2
timeout 1
submit 1 4 7 1 42
ship 1 2
commit 1
push 1 2 6
elect 2
timeout 2
push 1 2 5
look 2 1 5
elect 2
push 2 1 5
look 1 2 5
win 1
submit 1 4 7 1 42
push 1 2 6
commit 1
ship 1 2
look 1 2 6
push 2 1 6
look 1 2 6
ship 1 2
ship 1 2
ship 1 3
take 2 1
show 1
stop 2
stop 2
timeout 2
elect 2
win 2
commit 2
submit 2 4 7 1 42
submit 2 16 7 1 42
submit 2 4 64 1 1
ship 2 1
take 2 1
push 2 1 4
push 2 1 7
look 2 1 4
look 2 1 7
push 2 2 4
ship 2 2
show 2
stop 1
submit 1 4 7 1 42
ship 1 2
ship 1 3
commit 1
take 3 1
take 3 1
",
    prints: "no 1
no 1
no 1
no 1
no 1
no 1
no 1
no 1
no 1
no 1
no 1
no 1
no 1
no 1
no 1
no 1
no 1
no 1
no 1
no 1
no 1
no 1
no 1
no 1
no 1
no 1
no 1
no 1
no 1
no 1
no 1
no 1
no 1
no 1
no 1
no 1
no 1
no 1
no 1
no 1
no 1
no 1
no 1
no 1
no 1
no 1
no 1
no 1
no 1
no 1
no 1
no 1
no 1
no 1
no 1
no 1
no 1
no 1
no 1
no 1
no 1
no 1
no 1
no 1
no 1
no 1
no 1
no 1
no 1
no 1
no 1
no 1
no 1
no 1
no 1
no 1
no 1
no 1
no 1
no 1
no 1
no 1
no 1
no 1
no 1
no 1
no 1
no 1
no 1
no 1
no 1
no 3
no 3
no 3
no 3
no 3
no 3
no 3
no 3
no 3
no 3
no 3
no 3
no 3
no 3
no 3
no 3
no 3
no 3
no 3
no 3
no 3
no 3
no 3
no 3
no 3
no 5
no 5
no 5
no 6
no 6
no 6
no 6
no 7
ok 0
ok
ok
ok
ok
ok
ok
ok
ok
no 11
ok
ok
ok
ok
ok
ok
ok
ok
no 11
ok
ok
ok
ok
ok
ok
ok
ok
no 11
ok 0 1
no 7
no 7
ok
ok
ok 2
ok
ok
no 7
ok 0 1
no 5
no 5
no 6
no 6
no 6
ok 0 1 1
ok 0 1 2
ok 0 1 3
ok 0 1 4
ok 0 1 5
ok 0 1 6
ok 0 1 7
ok 1
ok 1
ok 1
ok 1
ok 1
ok 1
ok 1
ok 1
no 6
ok 0 1 8
no 11
no 10
no 3
card 1: leader
  epoch 0.1, new epoch 0.1, vote 0.1 with 0.0.0
  accepted 0.1.8, committed 0.0.0, next 0.1.0
  peer 2: nothing shipped; accept 0.0.0, vote 0.1 with 0.0.0, commit 0.0.0
  peer 3: shipped up to 7; accept 0.0.0, vote 0.0 with 0.0.0, commit 0.0.0
  log: 8 of 8 places
    0.1.1 queue 4: book load 7 for carrier 42
    0.1.2 queue 15: book load 8 for carrier 43
    0.1.3 queue 0: release load 7 by carrier 42
    0.1.4 queue 4: book load 7 for carrier 44
    0.1.5 queue 4: book load 9 for carrier 45
    0.1.6 queue 4: book load 10 for carrier 46
    0.1.7 queue 4: book load 11 for carrier 47
    0.1.8 queue 4: book load 12 for carrier 48
  board: every load is open
ok 2
ok 1
ok 1
no 6
no 5
no 5
no 5
no 3
no 5
no 6
no 6
ok 1
ok 2
ok 1
ok 1
ok 1
ok 1
ok 1
ok 1
ok 1
ok 1
ok 1
ok 1
ok 1
ok 1
ok 1
ok 1
ok 1
ok 1
no 6
no 6
no 5
no 6
ok
ok
ok 0
ok 1
ok 1
ok 1
ok
ok
ok 0
ok 1
no 6
ok
ok
ok 0
ok 1
ok 1 1
no 5
no 5
no 5
ok
no 5
ok 0 2
ok
ok
ok 2
ok
ok
ok 1 1
no 10
no 6
no 6
no 11
no 6
ok
ok
ok 8
no 6
no 11
ok 2
card 1: leader
  epoch 1.1, new epoch 1.1, vote 1.1 with 0.1.8
  accepted 1.1.0, committed 0.1.3, next 1.1.0
  peer 2: shipped the diff; accept 0.1.8, vote 1.1 with 0.1.8, commit 0.1.1
  peer 3: nothing shipped; accept 0.0.0, vote 0.0 with 0.0.0, commit 0.0.0
  log: 8 of 8 places
    0.1.1 queue 4: book load 7 for carrier 42
    0.1.2 queue 15: book load 8 for carrier 43
    0.1.3 queue 0: release load 7 by carrier 42
    0.1.4 queue 4: book load 7 for carrier 44
    0.1.5 queue 4: book load 9 for carrier 45
    0.1.6 queue 4: book load 10 for carrier 46
    0.1.7 queue 4: book load 11 for carrier 47
    0.1.8 queue 4: book load 12 for carrier 48
  board: load 8 held by carrier 43
ok
no 4
no 4
no 4
no 4
no 4
no 4
no 3
no 3
no 4
no 4
no 4
no 3
no 4
no 3
no 1
no 1
card 2: follower, stopped
  epoch 1.1, new epoch 1.1, vote 1.1 with 0.1.8
  accepted 1.1.0, committed 0.1.1, next 1.1.0
  peer 1: nothing shipped; accept 0.0.0, vote 1.1 with 0.1.8, commit 0.1.3
  peer 3: nothing shipped; accept 0.0.0, vote 0.0 with 0.0.0, commit 0.0.0
  log: 8 of 8 places
    0.1.1 queue 4: book load 7 for carrier 42
    0.1.2 queue 15: book load 8 for carrier 43
    0.1.3 queue 0: release load 7 by carrier 42
    0.1.4 queue 4: book load 7 for carrier 44
    0.1.5 queue 4: book load 9 for carrier 45
    0.1.6 queue 4: book load 10 for carrier 46
    0.1.7 queue 4: book load 11 for carrier 47
    0.1.8 queue 4: book load 12 for carrier 48
  board: load 7 held by carrier 42
ok
no 4
no 4
no 4
no 4
ok 1
ok 1
card 1 0.1.1 0.1.2 0.1.3
card 2 0.1.1
card 3 0.1.1
",
};
