//! What filters see, in which order: lists of requests, each with the callbacks that it leads to. They were written from the documents and the contracts, and
//! each manager is held to them: the one-thread manager, the workers, and the host for drivers in C, whose check reads the lists out of this file.

/// The lists. Each begins with `#` and its name. Behind a request, in the words of the host for drivers in C, stand the callbacks that it leads to, each
/// behind `saw`: which callback, of which instance, and for which kind of operation; at the cleanup of a context and at an unload of which filter.
/// `expect` says what the request must be answered.
pub const ORDER: &str = "
# held and let go by a detach
load hold
attach 0 0 hold-1 100
saw setup hold-1
create 0 always a
saw pre hold-1 create
write 0 0 6162
saw pre hold-1 write
read 0 0 1
saw pre hold-1 read
expect held
detach 0
saw query hold-1
saw start hold-1
saw complete hold-1
expect status 0
read 0 0 1
expect status 0
close 0
unload 0
saw unload hold
expect status 0

# held and let go by a flush
load hold
attach 0 0 hold-1 100
saw setup hold-1
create 0 always a
saw pre hold-1 create
write 0 0 6162
saw pre hold-1 write
read 0 0 1
saw pre hold-1 read
expect held
setsize 0 1
saw pre hold-1 setsize
expect held
flush 0
saw pre hold-1 flush
saw post hold-1 flush
saw post hold-1 read
saw post hold-1 setsize
close 0
saw pre hold-1 cleanup
saw pre hold-1 close
unload 0
saw unload hold
saw start hold-1
saw complete hold-1
expect status 0

# a context is sent along
load carry
attach 0 0 carry-1 100
saw setup carry-1
create 0 always a
saw pre carry-1 create
read 0 0 1
saw pre carry-1 read
saw post carry-1 read
read 0 0 1
saw pre carry-1 read
saw post carry-1 read
close 0
saw pre carry-1 cleanup
saw pre carry-1 close
saw cleanup carry handle
create 0 always a
saw pre carry-1 create
read 1 0 1
saw pre carry-1 read
saw post carry-1 read
unload 0
saw unload carry
saw start carry-1
saw complete carry-1
saw cleanup carry handle
expect status 0
close 1

# contexts of a stream and of an instance
load meter
attach 0 0 meter-1 100
saw setup meter-1
create 0 always a
saw pre meter-1 create
read 0 0 1
saw pre meter-1 read
create 0 always a
saw pre meter-1 create
read 1 0 1
saw pre meter-1 read
close 0
saw pre meter-1 cleanup
saw pre meter-1 close
close 1
saw pre meter-1 cleanup
saw pre meter-1 close
saw cleanup meter stream
detach 0
saw query meter-1
saw start meter-1
saw complete meter-1
saw cleanup meter instance
expect status 0
unload 0
saw unload meter
expect status 0

# attached below a held read
load hold
load with
attach 0 0 hold-1 300
saw setup hold-1
attach 1 0 with-1 100
saw setup with-1
create 0 always a
saw pre hold-1 create
saw pre with-1 create
saw post with-1 create
read 0 0 1
saw pre hold-1 read
expect held
attach 1 0 with-2 200
saw setup with-2
flush 0
saw pre hold-1 flush
saw pre with-2 flush
saw pre with-1 flush
saw post with-1 flush
saw post with-2 flush
saw post hold-1 flush
saw pre with-1 read
saw post with-1 read
saw post hold-1 read
querysize 0
saw pre hold-1 querysize
saw pre with-2 querysize
saw pre with-1 querysize
saw post with-1 querysize
saw post with-2 querysize
unload 1
saw unload with
saw start with-1
saw complete with-1
saw start with-2
saw complete with-2
expect status 0
close 0
saw pre hold-1 cleanup
saw pre hold-1 close
unload 0
saw unload hold
saw start hold-1
saw complete hold-1
expect status 0

# detached below a held read
load hold
load with
attach 0 0 hold-1 300
saw setup hold-1
attach 1 0 with-1 200
saw setup with-1
attach 1 0 with-2 100
saw setup with-2
create 0 always a
saw pre hold-1 create
saw pre with-1 create
saw pre with-2 create
saw post with-2 create
saw post with-1 create
read 0 0 1
saw pre hold-1 read
expect held
detach 1
saw query with-1
saw start with-1
saw complete with-1
expect status 0
flush 0
saw pre hold-1 flush
saw pre with-2 flush
saw post with-2 flush
saw post hold-1 flush
saw pre with-2 read
saw post with-2 read
saw post hold-1 read
unload 0
saw unload hold
saw start hold-1
saw complete hold-1
expect status 0
unload 1
saw unload with
saw start with-2
saw complete with-2
expect status 0
close 0

# two instances of one filter hold reads as it is unloaded
load hold
attach 0 0 hold-1 200
saw setup hold-1
attach 0 0 hold-2 100
saw setup hold-2
create 0 always a
saw pre hold-1 create
saw pre hold-2 create
read 0 0 1
saw pre hold-1 read
expect held
flush 0
saw pre hold-1 flush
saw pre hold-2 flush
saw post hold-2 flush
saw post hold-1 flush
saw pre hold-2 read
read 0 0 1
saw pre hold-1 read
expect held
unload 0
saw unload hold
saw start hold-1
saw drain hold-1 read
saw complete hold-1
saw start hold-2
saw complete hold-2
expect status 0
close 0

# drained of a read that is held below on its way down
load carry
load hold
attach 0 0 carry-1 200
saw setup carry-1
attach 1 0 hold-1 100
saw setup hold-1
create 0 always a
saw pre carry-1 create
saw pre hold-1 create
read 0 0 1
saw pre carry-1 read
saw pre hold-1 read
expect held
detach 0
saw query carry-1
saw start carry-1
saw drain carry-1 read
saw complete carry-1
saw cleanup carry handle
expect status 0
flush 0
saw pre hold-1 flush
saw post hold-1 flush
saw post hold-1 read
close 0
saw pre hold-1 cleanup
saw pre hold-1 close
unload 0
saw unload carry
expect status 0
unload 1
saw unload hold
saw start hold-1
saw complete hold-1
expect status 0

# drained of a read that is held below on its way up
load keep
load with
attach 0 0 keep-1 100
saw setup keep-1
attach 1 0 with-1 200
saw setup with-1
create 0 always a
saw pre with-1 create
saw pre keep-1 create
saw post with-1 create
read 0 0 1
saw pre with-1 read
saw pre keep-1 read
saw post keep-1 read
expect held
detach 1
saw query with-1
saw start with-1
saw drain with-1 read
saw complete with-1
expect status 0
flush 0
saw pre keep-1 flush
saw post keep-1 flush
read 0 0 1
saw pre keep-1 read
saw post keep-1 read
expect held
detach 0
saw query keep-1
saw start keep-1
saw complete keep-1
expect status 0
unload 0
saw unload keep
expect status 0
unload 1
saw unload with
expect status 0
close 0

# drained before another read goes on, and its own filter is in the way of a detach
load late
load keep
attach 0 0 late-1 200
saw setup late-1
attach 1 0 keep-1 100
saw setup keep-1
create 0 always a
saw pre late-1 create
saw pre keep-1 create
read 0 0 1
saw pre late-1 read
expect held
flush 0
saw pre late-1 flush
saw pre keep-1 flush
saw post keep-1 flush
saw post late-1 flush
saw pre keep-1 read
saw post keep-1 read
read 0 0 1
saw pre late-1 read
expect held
read 0 0 1
saw pre late-1 read
expect held
detach 0
saw query late-1
saw start late-1
saw drain late-1 read
saw pre keep-1 read
saw post keep-1 read
expect status 34
detach 0
expect status 34
flush 0
saw pre keep-1 flush
saw post keep-1 flush
detach 0
expect status 34
unload 0
saw unload late
expect status 34
detach 0
expect status 34
unload 0
expect status 34
unload 1
saw unload keep
saw start keep-1
saw complete keep-1
expect status 0

# a create that is denied below one filter and above another
load with
load deny
attach 0 0 with-1 300
saw setup with-1
attach 1 0 deny-1 200
saw setup deny-1
attach 0 0 with-2 100
saw setup with-2
create 0 always a
saw pre with-1 create
saw pre deny-1 create
saw post with-1 create
expect status 17
list 0
saw pre with-1 list
saw pre deny-1 list
saw pre with-2 list
saw post with-2 list
saw post with-1 list
expect status 0
unload 0
saw unload with
saw start with-1
saw complete with-1
saw start with-2
saw complete with-2
expect status 0
create 0 always a
saw pre deny-1 create
expect status 17
unload 1
saw unload deny
saw start deny-1
saw complete deny-1
expect status 0

# down by altitude and up in reverse
load with
load none
load sync
attach 0 0 with-1 200.45
saw setup with-1
attach 2 0 sync-1 1000
saw setup sync-1
attach 0 0 with-2 200.5
saw setup with-2
attach 1 0 none-1 300
saw setup none-1
create 0 always a
saw pre sync-1 create
saw pre none-1 create
saw pre with-2 create
saw pre with-1 create
saw post with-1 create
saw post with-2 create
write 0 0 6162
saw pre sync-1 write
saw pre none-1 write
saw pre with-2 write
saw pre with-1 write
saw post with-1 write
saw post with-2 write
read 0 0 2
saw pre sync-1 read
saw pre none-1 read
saw pre with-2 read
saw pre with-1 read
saw post with-1 read
saw post with-2 read
saw post sync-1 read
detach 2
saw query with-2
saw start with-2
saw complete with-2
expect status 0
close 0
saw pre sync-1 cleanup
saw pre none-1 cleanup
saw pre with-1 cleanup
saw post with-1 cleanup
saw pre sync-1 close
saw pre none-1 close
saw pre with-1 close
saw post with-1 close
unload 0
saw unload with
saw start with-1
saw complete with-1
expect status 0
unload 1
saw unload none
saw start none-1
saw complete none-1
expect status 0
unload 2
saw unload sync
saw start sync-1
saw complete sync-1
expect status 0

# a dismount beside a held read and an open handle
load carry
load hold
attach 0 0 carry-1 200
saw setup carry-1
attach 1 0 hold-1 100
saw setup hold-1
create 0 always a
saw pre carry-1 create
saw pre hold-1 create
read 0 0 1
saw pre carry-1 read
saw pre hold-1 read
expect held
dismount 0
expect status 34
flush 0
saw pre carry-1 flush
saw pre hold-1 flush
saw post hold-1 flush
saw post hold-1 read
saw post carry-1 read
dismount 0
saw start carry-1
saw complete carry-1
saw cleanup carry handle
saw start hold-1
saw complete hold-1
expect status 0
unload 0
saw unload carry
expect status 0
unload 1
saw unload hold
expect status 0
";
